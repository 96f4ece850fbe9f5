//! Changed lines that are found for a path.
ghost use Rattle.std.specs.Prelude.{◌≡◌, ◌&&◌, ◌||◌, Option, OnOk};
ghost use Rattle.sarif_diff.specs.declared.section.Span.{Span as OneSpan};
ghost use Rattle.sarif_change.specs.Internal.Files as files;

use crate::lines::ChangedLines;
use sarif_diff::Span;
use std::alloc::AllocError;

/// Adds these changed lines if they belong to a file that is looked for.
#[tactic(auto, using(crate::proofs::AnyChanged::not_added, crate::proofs::AnyChanged::one_added))]
pub(crate) fn push_if<'c>(
    found: &mut Vec<&'c ChangedLines>,
    is_sought: bool,
    changed: &'c ChangedLines,
) -> Result<(), AllocError>
    ensures { OnOk result ((lines : Option OneSpan) → files.any_changed lines found.new.items
        ≡ (files.any_changed lines found.old.items
        || (is_sought && files.changed_at lines changed.now))) }
{
    if !is_sought {
        return Ok(());
    }
    found.push(changed)?;
    Ok(())
}

/// Returns whether one of these files changed at one of these lines.
pub(crate) fn is_any_changed(found: &[&ChangedLines], lines: Option<Span>) -> bool
    ensures { result ≡ files.any_changed lines found.now }
{
    for changed in found {
        if changed.is_changed_at(lines) {
            return true;
        }
    }
    false
}

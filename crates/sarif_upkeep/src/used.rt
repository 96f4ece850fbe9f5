//! Which entries match a current result.
ghost use Rattle.std.specs.Prelude.{◌≡◌, List, map, IfOk};
ghost use Rattle.sarif_model.specs.declared.record.Record.{Record};
ghost use Rattle.sarif_suppress.specs.Internal.Marks.{marks_of};
ghost use Rattle.sarif_results.specs.Drafts.{applied_of};

use sarif_results::Draft;
use sarif_suppress::{Marks, Suppressions};
use std::alloc::{AllocError, Global};

/// The marks of the entries that match one of the results with these drafts.
pub(crate) fn used_by(
    alloc: Global,
    file: &Suppressions,
    drafts: &[Draft],
) -> Result<Marks, AllocError>
    ensures { IfOk result (λ marks. (rs : List Record)
        → map (λ draft. draft.applied) drafts.now ≡ map (applied_of file.now) rs
        → marks ≡ marks_of file.now rs) }
{
    let mut marks = file.marks(alloc)?;
    for draft in drafts {
        marks.set(&draft.applied);
    }
    Ok(marks)
}

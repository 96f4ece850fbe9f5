//! The accepted results, as the entries that accept them see them.
ghost use Rattle.std.specs.Prelude.{◌≡◌, map, true, IfOk};
ghost use Rattle.std.specs.Option.{option_map_or};
ghost use Rattle.sarif_evidence.specs.Seen.{as_matched as looked_at};
ghost use Rattle.sarif_evidence.specs.declared.version.MatchingVersion.TheVariants.{Two};

use sarif_evidence::{MatchingVersion, as_matched};
use sarif_model::Record;
use std::alloc::{AllocError, Global};

/// Whether none of these results has a snippet. Then version 2 reads all of each.
#[tactic(auto, using(crate::proofs::Shown::one_more))]
fn have_no_snippets(accepted: &[&Record]) -> bool
    ensures { result ≡ true
        → map (λ r. looked_at Two r.now) accepted.now ≡ map (λ r. r.now) accepted.now }
{
    for record in accepted {
        if record.snippet.is_some() {
            return false;
        }
    }
    true
}

/// What a version of matching reads from these results.
fn look_at(
    alloc: Global,
    version: MatchingVersion,
    accepted: &[&Record],
) -> Result<Vec<Record>, AllocError>
    ensures { IfOk result
        (λ shown. shown.items ≡ map (λ r. looked_at version r.now) accepted.now) }
{
    let mut shown = Vec::with_capacity(alloc, accepted.len())?;
    for record in accepted {
        shown.push(as_matched(alloc, version, *record)?)?;
    }
    Ok(shown)
}

/// What a version of matching reads from these results, unless that is all of them: then none is copied.
pub(crate) fn shown_if_less(
    alloc: Global,
    version: MatchingVersion,
    accepted: &[&Record],
) -> Result<Option<Vec<Record>>, AllocError>
    ensures { IfOk result (λ shown. option_map_or (λ v. v.items) shown
        (map (λ r. r.now) accepted.now) ≡ map (λ r. looked_at version r.now) accepted.now) }
{
    match version {
        MatchingVersion::Two if have_no_snippets(accepted) => Ok(None),
        _ => Ok(Some(look_at(alloc, version, accepted)?)),
    }
}

/// References to these records.
pub(crate) fn references<'m>(
    alloc: Global,
    records: &'m [Record],
) -> Result<Vec<&'m Record>, AllocError>
    ensures { IfOk result (λ found. map (λ r. r.now) found.items ≡ records.now) }
{
    let mut found = Vec::with_capacity(alloc, records.len())?;
    for record in records {
        found.push(record)?;
    }
    Ok(found)
}

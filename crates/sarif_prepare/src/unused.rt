//! Which entries of the suppression file match no result of the logs, and which of these are expired.
ghost use Rattle.std.specs.Prelude.{◌≡◌, ◌≤◌, List, IfOk, count_by, length};
ghost use Rattle.serde_json.specs.Data.{Data};
ghost use Rattle.sarif_model.specs.declared.record.Record.{Record};
ghost use Rattle.sarif_entries.specs.Matching.{is_expired};
ghost use Rattle.sarif_suppress.specs.Suppressing.{unused_of};
ghost use Rattle.sarif_results.specs.Drafts.{applied_of, drafts_by};
ghost use Rattle.sarif_log.specs.LogBy.{expired_of, listing_of};
ghost use Rattle.sarif_prepare.specs.Internal.Marked.{marked};

use sarif_entries::Entry;
use sarif_results::Draft;
use sarif_suppress::{Marks, Suppressions};
use std::alloc::{AllocError, Global};

/// Marks the entries of the suppression file that match these results. Does not allocate.
pub fn mark_entries(marks: &mut Marks, drafts: &[Draft])
    ensures { marks.new ≡ marked marks.old drafts.now }
{
    for draft in drafts {
        marks.set(&draft.applied);
    }
}

/// How many entries of the suppression file match none of the results with these drafts.
pub(crate) fn count_unused(
    alloc: Global,
    file: &Suppressions,
    drafts: &[Draft],
) -> Result<u32, AllocError>
    ensures { IfOk result (λ unused. (rs : List Record) (ds : List Data)
        → length rs ≡ length ds
        → drafts.now ≡ drafts_by (listing_of file.now) (applied_of file.now) rs ds
        → unused ≡ unused_of file.now rs) }
{
    let mut marks = file.marks(alloc)?;
    mark_entries(&mut marks, drafts);
    Ok(marks.unused())
}

/// How many of these entries are expired on that day.
fn count_past(entries: &[Entry], today: Option<u32>) -> usize
    ensures few { result ≤ length entries.now }
    ensures count { result ≡ count_by (λ e. is_expired today e) entries.now }
{
    entries
        .iter()
        .filter(|entry| entry.is_expired(today))
        .count()
}

/// How many of the unused entries of the suppression file are expired: all that are expired, since these match nothing.
pub(crate) fn count_expired(file: &Suppressions) -> u32
    ensures { (rs : List Record) → result ≡ expired_of file.now rs }
{
    // There are at most as many, so their number fits.
    let _all = file.len();
    count_past(file.entries(), file.today()) as u32
}

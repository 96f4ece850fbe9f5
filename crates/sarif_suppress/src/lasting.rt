//! What the entries without an expiry date suppress.
ghost use Rattle.std.specs.Prelude.{◌≡◌, ◌&&◌, ◌||◌, not, is_some};
ghost use Rattle.std.specs.List.{list_all, list_any};
ghost use Rattle.sarif_entries.specs.Matching.{is_empty};
ghost use Rattle.sarif_suppress.specs.Internal.Numbers.{passes_at};
ghost use Rattle.sarif_suppress.specs.Suppressing as said;
ghost use Rattle.sarif_suppress.specs.Suppressing.{is_lasting};
ghost use Rattle.sarif_model.specs.Status.{is_accepted};

use crate::select::all_accepted;
use sarif_entries::Entry;
use sarif_model::Status;

/// Whether there is an entry with this number and it has no expiry date.
fn is_lasting_at(entries: &[Entry], number: u32) -> bool
    ensures { result ≡ passes_at is_lasting entries.now number }
{
    match entries.get(number as usize) {
        Some(entry) => entry.expires.is_none(),
        None => false,
    }
}

/// Whether the entry with this number has an expiry date, or is accepted.
fn is_passing_at(entries: &[Entry], number: u32) -> bool
    ensures { result
        ≡ passes_at (λ e. not (is_lasting e) || is_accepted e.status) entries.now number }
{
    match entries.get(number as usize) {
        Some(entry) => entry.expires.is_some() || entry.status.is_accepted(),
        None => false,
    }
}

/// Whether one of the entries with these numbers has no expiry date.
fn is_any_lasting(entries: &[Entry], numbers: &[u32]) -> bool
    ensures { result ≡ list_any (passes_at is_lasting entries.now) numbers.now }
{
    numbers.iter().any(|number| is_lasting_at(entries, *number))
}

/// Whether each of the entries with these numbers has an expiry date, or is accepted.
fn are_passing(entries: &[Entry], numbers: &[u32]) -> bool
    ensures { result
        ≡ list_all (passes_at (λ e. not (is_lasting e) || is_accepted e.status) entries.now)
        numbers.now }
{
    numbers.iter().all(|number| is_passing_at(entries, *number))
}

/// Whether suppressions of these statuses, and then of those of the entries with these numbers that have no expiry
/// date, suppress.
pub(crate) fn do_suppress_for_good(held: &[Status], entries: &[Entry], numbers: &[u32]) -> bool
    ensures { result ≡ ((not (is_empty held.now)
        || list_any (passes_at is_lasting entries.now) numbers.now)
        && (list_all is_accepted held.now
        && list_all (passes_at (λ e. not (is_lasting e) || is_accepted e.status) entries.now)
        numbers.now)) }
{
    (!held.is_empty() || is_any_lasting(entries, numbers))
        && all_accepted(held)
        && are_passing(entries, numbers)
}

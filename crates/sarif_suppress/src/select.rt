//! Which entries match a result, among those whose numbers the tables give.
ghost use Rattle.std.specs.Prelude.{◌≡◌, ◌&&◌, [], false, filter, IfOk, OnOk, if◌then◌else◌};
ghost use Rattle.std.specs.BTreeSet.{insert_key, keys};
ghost use Rattle.std.specs.Ordering.{nat_cmp};
ghost use Rattle.std.specs.List.{list_all};
ghost use Rattle.sarif_entries.specs.Matching.{is_empty, matches};
ghost use Rattle.sarif_entries.specs.Matching as matching;
ghost use Rattle.sarif_model.specs.declared.record.Record.{Record as Found};
ghost use Rattle.sarif_suppress.specs.Internal.Numbers.{passes_at, with_numbers};
ghost use Rattle.sarif_suppress.specs.Suppressing as said;
ghost use Rattle.sarif_model.specs.Status.{is_accepted};

use sarif_entries::{Entry, Limit};
use sarif_model::{Record, Sequence, Status};
use std::alloc::{AllocError, Global};
use std::collections::BTreeSet;

/// Returns the set of these numbers.
fn set_of(alloc: Global, numbers: &[u32]) -> Result<BTreeSet<u32>, AllocError>
    ensures { IfOk result (λ set. keys set ≡ with_numbers [] numbers.now) }
{
    let mut set = BTreeSet::new(alloc);
    for number in numbers {
        set.insert(*number)?;
    }
    Ok(set)
}

/// Returns whether an entry with this limit admits a result that has the numbers in `admitted`; one without a limit admits
/// each.
fn is_admitted(limit: Option<Limit>, admitted: &BTreeSet<u32>) -> bool
    ensures { (r : Found) → keys admitted.now ≡ with_numbers [] r.admitted
        → result ≡ matching.is_admitted limit r }
{
    match limit {
        Some(limit) => admitted.contains(&limit.number),
        None => true,
    }
}

/// A result, and the numbers of the entries with `max` that admit it.
#[derive(Clone, Copy)]
struct Given<'r> {
    record: &'r Record,
    admitted: &'r BTreeSet<u32>,
    ghost are_admitted: { keys admitted.now ≡ with_numbers [] «record».now.admitted },
}

/// Adds the number, if there is such an entry and it matches the result.
fn add_if_matching(
    found: &mut BTreeSet<u32>,
    entries: &[Entry],
    today: Option<u32>,
    given: Given<'_>,
    number: u32,
) -> Result<(), AllocError>
    ensures { OnOk result (keys found.new
        ≡ (if passes_at (λ e. matches today e given.entry.«record».now) entries.now number
        then insert_key nat_cmp (keys found.old) number else keys found.old)) }
{
    if let Some(entry) = entries.get(number as usize) {
        if is_admitted(entry.limit, given.admitted) && entry.is_met(today, given.record) {
            found.insert(number)?;
        }
    }
    Ok(())
}

/// Adds those of these numbers whose entries match the result.
fn add_matching(
    found: &mut BTreeSet<u32>,
    entries: &[Entry],
    today: Option<u32>,
    given: Given<'_>,
    numbers: &[u32],
) -> Result<(), AllocError>
    ensures { OnOk result (keys found.new ≡ with_numbers (keys found.old)
        (filter (passes_at (λ e. matches today e given.entry.«record».now) entries.now)
        numbers.now)) }
{
    for number in numbers {
        add_if_matching(found, entries, today, given, *number)?;
    }
    Ok(())
}

/// Returns those of these numbers whose entries match the result, in rising order, each once.
pub(crate) fn select(
    alloc: Global,
    entries: &[Entry],
    today: Option<u32>,
    record: &Record,
    numbers: &[u32],
) -> Result<Sequence<u32>, AllocError>
    ensures { IfOk result (λ found. found ≡ with_numbers []
        (filter (passes_at (λ e. matches today e «record».now) entries.now) numbers.now)) }
{
    let admitted = set_of(alloc, record.admitted.as_slice())?;
    let given = Given {
        record,
        admitted: &admitted,
    };
    let mut found = BTreeSet::new(alloc);
    add_matching(&mut found, entries, today, given, numbers)?;
    let rising = rising(alloc, &found)?;
    sequence_of(alloc, &rising)
}

/// The numbers in order.
fn rising(alloc: Global, numbers: &BTreeSet<u32>) -> Result<Vec<u32>, AllocError>
    ensures { IfOk result (λ rising. rising.items ≡ keys numbers.now) }
{
    numbers.iter().copied().collect(alloc)
}

/// The same numbers as a sequence.
fn sequence_of(alloc: Global, numbers: &[u32]) -> Result<Sequence<u32>, AllocError>
    ensures { IfOk result (λ found. found ≡ numbers.now) }
{
    let mut found = Sequence::new(alloc);
    for number in numbers {
        found.push(*number)?;
    }
    Ok(found)
}

/// Returns whether all of these statuses are accepted.
pub fn all_accepted(statuses: &[Status]) -> bool
    ensures { result ≡ list_all is_accepted statuses.now }
{
    statuses.iter().all(|status| status.is_accepted())
}

/// Whether there is an entry with this number and it is accepted.
fn is_accepted_at(entries: &[Entry], number: u32) -> bool
    ensures { result ≡ passes_at (λ e. is_accepted e.status) entries.now number }
{
    match entries.get(number as usize) {
        Some(entry) => entry.status.is_accepted(),
        None => false,
    }
}

/// Whether the entries with these numbers are accepted.
fn are_accepted(entries: &[Entry], numbers: &[u32]) -> bool
    ensures { result
        ≡ list_all (passes_at (λ e. is_accepted e.status) entries.now) numbers.now }
{
    numbers
        .iter()
        .all(|number| is_accepted_at(entries, *number))
}

/// Whether suppressions of these statuses, and then of the entries with these numbers, suppress.
pub(crate) fn do_suppress(held: &[Status], entries: &[Entry], numbers: &[u32]) -> bool
    ensures { result ≡ (if is_empty held.now && is_empty numbers.now then false
        else (list_all is_accepted held.now
        && list_all (passes_at (λ e. is_accepted e.status) entries.now) numbers.now)) }
{
    if held.is_empty() && numbers.is_empty() {
        return false;
    }
    all_accepted(held) && are_accepted(entries, numbers)
}

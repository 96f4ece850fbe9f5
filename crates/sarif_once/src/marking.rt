//! Which results of judged runs are copies.
ghost use Rattle.std.specs.Prelude.{◌≡◌, ◌≤◌, ◌+◌, ◌∷◌, [], Bool, IfOk, drop, length, map};
ghost use Rattle.sarif_copies.specs.Copies.{copies_of, numbers_of};
ghost use Rattle.sarif_entries.specs.File.{File};
ghost use Rattle.sarif_results.specs.Internal.Judged.{placed_in, IsJudged};
ghost use Rattle.sarif_runs.specs.Judging.{records_in, records_of};
ghost use Rattle.sarif_once.specs.Internal.Parted.{AreCopyMarks};
ghost use Rattle.sarif_once.specs.Once.{mark_of, marks_in};

use sarif_copies::{Apart, set_apart};
use sarif_model::Record;
use sarif_results::{Judged, Outcome};
use sarif_runs::Item;
use std::alloc::{AllocError, Global};
use std::hash::RandomState;

/// Which results of some runs are copies, and where the findings are.
#[derive(Drop)]
pub struct CopyMarks {
    /// Whether each result is a copy.
    pub marks: Vec<bool>,
    /// Whether each result with a record is a copy, and where its finding is.
    pub apart: Apart,
}

/// The records of these results.
fn list_records<'o>(alloc: Global, outcomes: &'o [Outcome]) -> Result<Vec<&'o Record>, AllocError>
    ensures records { IfOk result (λ records. map (λ r. r.now) records.items
        ≡ records_in (map (λ o. o.item) outcomes.now)) }
    ensures few { IfOk result (λ records. length records.items ≤ length outcomes.now) }
{
    let mut records = Vec::with_capacity(alloc, outcomes.len())?;
    for outcome in outcomes {
        if let Item::Sound(record) = &outcome.item {
            records.push(record)?;
        }
    }
    Ok(records)
}

/// How many records this result has.
fn count_in(item: &Item) -> usize
    ensures { result ≡ length (records_in (item.now ∷ [])) }
{
    match item {
        Item::Sound(_) => 1,
        Item::Bad(_) | Item::Skipped => 0,
    }
}

/// The mark of this result, where its record has this number.
fn mark_at(item: &Item, marks: &[bool], number: usize) -> bool
    requires { number + length (records_in (item.now ∷ [])) ≤ length marks.now }
    ensures { result ≡ mark_of item.now (drop number marks.now) }
{
    match item {
        Item::Sound(_) => marks[number],
        Item::Bad(_) | Item::Skipped => false,
    }
}

/// The mark of each result, by the marks of the records.
fn list_marks(alloc: Global, outcomes: &[Outcome], marks: &[bool]) -> Result<Vec<bool>, AllocError>
    requires { length marks.now ≡ length (records_in (map (λ o. o.item) outcomes.now)) }
    ensures marks { IfOk result
        (λ all. all.items ≡ marks_in (map (λ o. o.item) outcomes.now) marks.now) }
    ensures count { IfOk result (λ all. length all.items ≡ length outcomes.now) }
{
    let mut all = Vec::with_capacity(alloc, outcomes.len())?;
    let mut number = 0;
    for outcome in outcomes {
        all.push(mark_at(&outcome.item, marks, number))?;
        number += count_in(&outcome.item);
    }
    Ok(all)
}

/// Which results of these runs with a record are copies, and where the findings are.
fn apart_in(alloc: Global, seed: RandomState, judged: &Judged<'_, '_>) -> Result<Apart, AllocError>
    requires { (file : File) × (baseline : Bool) × IsJudged file baseline judged.now }
    ensures copies { IfOk result
        (λ apart. apart.copies.items ≡ copies_of (records_of (placed_in judged.now))) }
    ensures numbers { IfOk result
        (λ apart. apart.numbers.items ≡ numbers_of (records_of (placed_in judged.now))) }
{
    let records = list_records(alloc, &judged.outcomes)?;
    set_apart(alloc, seed, &records)
}

/// Which results of runs without errors are copies. A result is a copy if it is alike to an earlier one of these runs:
/// both have a URI and a region, and their records are equal. Tables hash with `seed`, on which the marks don't
/// depend. Returns `AllocError` if memory runs out.
pub fn mark_copies(
    alloc: Global,
    seed: RandomState,
    judged: &Judged<'_, '_>,
) -> Result<CopyMarks, AllocError>
    requires { (file : File) × (baseline : Bool) × IsJudged file baseline judged.now }
    ensures { IfOk result (AreCopyMarks (placed_in judged.now)) }
{
    let apart = apart_in(alloc, seed, judged)?;
    let marks = list_marks(alloc, &judged.outcomes, &apart.copies)?;
    Ok(CopyMarks { marks, apart })
}

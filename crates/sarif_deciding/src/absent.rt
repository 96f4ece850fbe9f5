//! The absent results as conditions see them: those of baselines that match no current result.
ghost use Rattle.std.specs.Prelude.{◌≡◌, ◌++◌, ◌∷◌, [], map, length, List, IfOk, OnOk};
ghost use Rattle.sarif_conditions.specs.Judged.{judged_of};
ghost use Rattle.sarif_model.specs.declared.kinds.State.TheVariants.{Absent};
ghost use Rattle.sarif_policy.specs.declared.condition.GateCondition.{GateCondition as Condition};
ghost use Rattle.sarif_read.specs.Unmarked.{unmarked};
ghost use Rattle.sarif_deciding.specs.Internal.Looked.{seen_of, IsAbsentLooked};
ghost use Rattle.sarif_deciding.specs.Internal.Rated.{ratings_or};
ghost use Rattle.sarif_deciding.specs.Merge.{matched_of, AreLeft};
ghost use Rattle.sarif_deciding.specs.Results as said;

use crate::asked::{ratchets, rates};
use crate::gone::{list_gone, test_of};
use crate::inside::mark_each;
use crate::merge::{Deciding, MatchedMerge};
use crate::rated::{list_ratings, rate, unrated};
use crate::ratings::Ratings;
use crate::seen::{SeenResult, judge_all, see_all};
use sarif_conditions::JudgedResult;
use sarif_model::{Record, State};
use sarif_policy::GateCondition;
use sarif_results::Draft;
use sarif_runs::Spot;
use std::alloc::{AllocError, Global};
use std::hash::RandomState;
use std::thread::Threads;

/// What conditions require of the absent results.
#[derive(Drop)]
pub(crate) struct AbsentLooked<'m, 't: 'm, 'a: 't> {
    pub(crate) ratings: Ratings<'m, 't, 'a>,
    pub(crate) records: Vec<&'m Record>,
    /// Which of them went away.
    pub(crate) gone: Vec<bool>,
}

/// Adds a place, unless its result is marked.
fn push_spot(list: &mut Vec<Spot>, mark: bool, spot: Spot) -> Result<(), AllocError>
    ensures { OnOk result (list.new.items ≡ list.old.items ++ unmarked (mark ∷ []) (spot ∷ [])) }
{
    if !mark {
        list.push(spot)?;
    }
    Ok(())
}

/// The places of the results that aren't marked.
fn left_spots(alloc: Global, spots: &[Spot], taken: &[bool]) -> Result<Vec<Spot>, AllocError>
    requires { length taken.now ≡ length spots.now }
    ensures { IfOk result (λ list. list.items ≡ unmarked taken.now spots.now) }
{
    let mut list = Vec::new(alloc);
    for (number, spot) in spots.iter().enumerate() {
        push_spot(&mut list, taken[number], *spot)?;
    }
    Ok(list)
}

/// Adds a record, unless its result is marked.
fn push_record<'m>(
    list: &mut Vec<&'m Record>,
    mark: bool,
    record: &'m Record,
) -> Result<(), AllocError>
    ensures { OnOk result (map (λ r. r.now) list.new.items
        ≡ map (λ r. r.now) list.old.items ++ unmarked (mark ∷ []) («record».now ∷ [])) }
{
    if !mark {
        list.push(record)?;
    }
    Ok(())
}

/// The records of the results that aren't marked.
fn left_records<'m>(
    alloc: Global,
    records: &'m [Record],
    taken: &[bool],
) -> Result<Vec<&'m Record>, AllocError>
    requires { length taken.now ≡ length records.now }
    ensures { IfOk result
        (λ list. map (λ r. r.now) list.items ≡ unmarked taken.now records.now) }
{
    let mut list = Vec::new(alloc);
    for (number, record) in records.iter().enumerate() {
        push_record(&mut list, taken[number], record)?;
    }
    Ok(list)
}

/// Rates the absent results, if a condition requires it.
fn rate_absent<'m, 't, 'a, R: Threads + Sync>(
    rt: &R,
    alloc: Global,
    merge: &MatchedMerge<'m, 't, 'a>,
    conditions: &[GateCondition],
    threads: u32,
) -> Result<Ratings<'m, 't, 'a>, AllocError>
    requires left { AreLeft merge.now.before }
    ensures { IfOk result (λ ratings. ratings_or ratings merge.now.before.left.now
        ≡ said.absent_ratings conditions.now (matched_of merge.now)) }
{
    if rates(conditions) {
        let before = &merge.before;
        let spots = left_spots(alloc, before.spots, before.taken)?;
        let ratings = rate(rt, alloc, before.runs, spots, threads)?;
        Ok(ratings)
    } else {
        Ok(unrated())
    }
}

/// Returns which of the absent results with these records went away, if a condition requires it.
fn find_gone(
    alloc: Global,
    seed: RandomState,
    merge: &MatchedMerge<'_, '_, '_>,
    conditions: &[GateCondition],
    records: &[&Record],
) -> Result<Vec<bool>, AllocError>
    requires records { map (λ r. r.now) records.now
        ≡ unmarked merge.now.before.taken.now merge.now.before.records.now }
    ensures { IfOk result
        (λ gone. gone.items ≡ said.gone_in conditions.now (matched_of merge.now)) }
{
    if ratchets(conditions) {
        let test = test_of(alloc, seed, merge.current.runs, merge.file)?;
        let gone = list_gone(alloc, &test, records)?;
        Ok(gone)
    } else {
        mark_each(alloc, false, merge.before.left)
    }
}

/// Reads of the absent results what conditions require.
pub(crate) fn look_at_absent<'m, 't, 'a, R: Threads + Sync>(
    rt: &R,
    alloc: Global,
    merge: &MatchedMerge<'m, 't, 'a>,
    conditions: &[GateCondition],
    deciding: Deciding,
) -> Result<AbsentLooked<'m, 't, 'a>, AllocError>
    requires left { AreLeft merge.now.before }
    ensures { IfOk result (IsAbsentLooked conditions.now (matched_of merge.now)) }
{
    let before = &merge.before;
    let ratings = rate_absent(rt, alloc, merge, conditions, deciding.threads)?;
    let records = left_records(alloc, before.records, before.taken)?;
    let gone = find_gone(alloc, deciding.seed, merge, conditions, &records)?;
    Ok(AbsentLooked {
        ratings,
        records,
        gone,
    })
}

/// The state of each absent result.
fn list_absent(alloc: Global, drafts: &[Draft]) -> Result<Vec<State>, AllocError>
    ensures { IfOk result (λ states. states.items ≡ said.for_each Absent drafts.now) }
{
    let mut states = Vec::with_capacity(alloc, drafts.len())?;
    for _draft in drafts {
        states.push(State::Absent)?;
    }
    Ok(states)
}

/// What is seen of the absent results.
fn see_absent<'r>(
    alloc: Global,
    merge: &MatchedMerge<'_, '_, '_>,
    looked: &'r AbsentLooked<'_, '_, '_>,
) -> Result<Vec<SeenResult<'r>>, AllocError>
    requires left { AreLeft merge.now.before }
    requires looked { (cs : List Condition) × IsAbsentLooked cs (matched_of merge.now) looked.now }
    ensures { IfOk result (λ seen. (cs : List Condition)
        → IsAbsentLooked cs (matched_of merge.now) looked.now
        → map seen_of seen.items ≡ said.absent_seen cs (matched_of merge.now)) }
{
    let drafts = merge.before.left;
    let ratings = list_ratings(alloc, &looked.ratings, drafts)?;
    let outside = mark_each(alloc, false, drafts)?;
    let seen = see_all(alloc, &ratings, &outside, &outside, &looked.gone)?;
    Ok(seen)
}

/// Returns the absent results as conditions see them.
pub(crate) fn judge_absent<'r>(
    alloc: Global,
    merge: &'r MatchedMerge<'_, '_, '_>,
    looked: &'r AbsentLooked<'_, '_, '_>,
) -> Result<Vec<JudgedResult<'r>>, AllocError>
    requires left { AreLeft merge.now.before }
    requires looked { (cs : List Condition) × IsAbsentLooked cs (matched_of merge.now) looked.now }
    ensures judged { IfOk result (λ judged. (cs : List Condition)
        → IsAbsentLooked cs (matched_of merge.now) looked.now
        → map judged_of judged.items ≡ said.absent_results cs (matched_of merge.now)) }
    ensures count { IfOk result
        (λ judged. length judged.items ≡ length merge.now.before.left.now) }
{
    let drafts = merge.before.left;
    let seen = see_absent(alloc, merge, looked)?;
    let states = list_absent(alloc, drafts)?;
    let judged = judge_all(alloc, &looked.records, &states, drafts, &seen)?;
    Ok(judged)
}

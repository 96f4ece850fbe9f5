//! The current results as conditions see them.
ghost use Rattle.std.specs.Prelude.{◌≡◌, false, map, length, List, IfOk, if◌then◌else◌};
ghost use Rattle.sarif_conditions.specs.Judged.{judged_of};
ghost use Rattle.sarif_policy.specs.declared.condition.GateCondition.{GateCondition as Condition};
ghost use Rattle.sarif_results.specs.declared.draft.Draft.{Draft as AnyDraft};
ghost use Rattle.sarif_deciding.specs.Internal.Looked.{seen_of, IsCurrentLooked};
ghost use Rattle.sarif_deciding.specs.Internal.Rated.{ratings_or};
ghost use Rattle.sarif_deciding.specs.Merge.{matched_of, state_in, AreCurrent};
ghost use Rattle.sarif_deciding.specs.Results as said;

use crate::asked::rates;
use crate::inside::{inside_in, mark_each};
use crate::merge::MatchedMerge;
use crate::rated::{list_ratings, rate, unrated};
use crate::ratings::Ratings;
use crate::seen::{SeenResult, judge_all, see_all};
use sarif_change::Scope;
use sarif_conditions::JudgedResult;
use sarif_model::State;
use sarif_policy::GateCondition;
use sarif_runs::list_spots;
use sarif_share::each_of;
use std::alloc::{AllocError, Global};
use std::thread::Threads;

/// What conditions require of the current results.
#[derive(Drop)]
pub(crate) struct CurrentLooked<'m, 't: 'm, 'a: 't> {
    pub(crate) ratings: Ratings<'m, 't, 'a>,
    /// Which of them are inside of the change by the changed lines.
    pub(crate) in_lines: Vec<bool>,
    /// Which of them are inside of the change by the changed files.
    pub(crate) in_files: Vec<bool>,
}

/// Rates the current results, if a condition requires it.
fn rate_current<'m, 't, 'a, R: Threads + Sync>(
    rt: &R,
    alloc: Global,
    merge: &MatchedMerge<'m, 't, 'a>,
    conditions: &[GateCondition],
    threads: u32,
) -> Result<Ratings<'m, 't, 'a>, AllocError>
    requires current { AreCurrent merge.now.current }
    ensures { IfOk result (λ ratings. ratings_or ratings merge.now.current.drafts.now
        ≡ said.current_ratings conditions.now (matched_of merge.now)) }
{
    if rates(conditions) {
        let runs = merge.current.runs;
        let spots = list_spots(alloc, runs)?;
        let ratings = rate(rt, alloc, runs, spots, threads)?;
        Ok(ratings)
    } else {
        Ok(unrated())
    }
}

/// Reads of the current results what conditions require.
pub(crate) fn look_at_current<'m, 't, 'a, R: Threads + Sync>(
    rt: &R,
    alloc: Global,
    merge: &MatchedMerge<'m, 't, 'a>,
    conditions: &[GateCondition],
    threads: u32,
) -> Result<CurrentLooked<'m, 't, 'a>, AllocError>
    requires current { AreCurrent merge.now.current }
    ensures { IfOk result (IsCurrentLooked conditions.now (matched_of merge.now)) }
{
    let ratings = rate_current(rt, alloc, merge, conditions, threads)?;
    let in_lines = inside_in(rt, alloc, Scope::Lines, conditions, merge, threads)?;
    let in_files = inside_in(rt, alloc, Scope::Files, conditions, merge, threads)?;
    Ok(CurrentLooked {
        ratings,
        in_lines,
        in_files,
    })
}

/// The state of a current result.
fn state_in(state: Option<State>) -> State
    ensures { result ≡ state_in state }
{
    match state {
        None => State::New,
        Some(state) => state,
    }
}

/// The state of each current result.
fn list_states(alloc: Global, states: &[Option<State>]) -> Result<Vec<State>, AllocError>
    ensures { IfOk result (λ list. list.items ≡ map state_in states.now) }
{
    let mut list = Vec::with_capacity(alloc, states.len())?;
    for state in states {
        list.push(state_in(*state))?;
    }
    Ok(list)
}

/// What is seen of the current results.
fn see_current<'r>(
    alloc: Global,
    merge: &MatchedMerge<'_, '_, '_>,
    looked: &'r CurrentLooked<'_, '_, '_>,
) -> Result<Vec<SeenResult<'r>>, AllocError>
    requires current { AreCurrent merge.now.current }
    requires looked { (cs : List Condition) × IsCurrentLooked cs (matched_of merge.now) looked.now }
    ensures { IfOk result (λ seen. (cs : List Condition)
        → IsCurrentLooked cs (matched_of merge.now) looked.now
        → map seen_of seen.items ≡ said.current_seen cs (matched_of merge.now)) }
{
    let drafts = merge.current.drafts;
    let ratings = list_ratings(alloc, &looked.ratings, drafts)?;
    let gone = mark_each(alloc, false, drafts)?;
    let seen = see_all(alloc, &ratings, &looked.in_lines, &looked.in_files, &gone)?;
    Ok(seen)
}

/// Returns the current results as conditions see them.
pub(crate) fn judge_current<'r>(
    alloc: Global,
    merge: &'r MatchedMerge<'_, '_, '_>,
    looked: &'r CurrentLooked<'_, '_, '_>,
) -> Result<Vec<JudgedResult<'r>>, AllocError>
    requires current { AreCurrent merge.now.current }
    requires looked { (cs : List Condition) × IsCurrentLooked cs (matched_of merge.now) looked.now }
    ensures judged { IfOk result (λ judged. (cs : List Condition)
        → IsCurrentLooked cs (matched_of merge.now) looked.now
        → map judged_of judged.items ≡ said.current_results cs (matched_of merge.now)) }
    ensures count { IfOk result
        (λ judged. length judged.items ≡ length merge.now.current.drafts.now) }
{
    let current = &merge.current;
    let seen = see_current(alloc, merge, looked)?;
    let records = each_of(alloc, current.records)?;
    let states = list_states(alloc, current.states)?;
    let judged = judge_all(alloc, &records, &states, current.drafts, &seen)?;
    Ok(judged)
}

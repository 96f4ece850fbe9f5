//! Which current results are inside of the change.
ghost use Rattle.std.specs.Prelude.{◌≡◌, true, not, map, option_map, IfOk};
ghost use Rattle.sarif_outside.specs.Marks.{in_scope, outside_marks};
ghost use Rattle.sarif_runs.specs.Internal.Opened.{placed_of};
ghost use Rattle.sarif_deciding.specs.Merge.{matched_of, runs_in, AreCurrent};
ghost use Rattle.sarif_deciding.specs.Results as said;

use crate::asked::asks_scope;
use crate::merge::{CurrentResults, MatchedMerge};
use sarif_change::Scope;
use sarif_outside::{ScopedChange, mark_outside_in};
use sarif_policy::GateCondition;
use sarif_results::Draft;
use sarif_scope::GatedChange;
use std::alloc::{AllocError, Global};
use std::thread::Threads;

/// Returns this mark for each of these results.
pub(crate) fn mark_each(
    alloc: Global,
    mark: bool,
    drafts: &[Draft],
) -> Result<Vec<bool>, AllocError>
    ensures { IfOk result (λ marks. marks.items ≡ said.for_each mark drafts.now) }
{
    let mut marks = Vec::with_capacity(alloc, drafts.len())?;
    for _draft in drafts {
        marks.push(mark)?;
    }
    Ok(marks)
}

/// Returns whether each of these results is active.
fn list_active(alloc: Global, drafts: &[Draft]) -> Result<Vec<bool>, AllocError>
    ensures { IfOk result (λ list. list.items ≡ said.active_of drafts.now) }
{
    let mut list = Vec::with_capacity(alloc, drafts.len())?;
    for draft in drafts {
        list.push(!draft.suppressed)?;
    }
    Ok(list)
}

/// Returns the opposite of each mark.
fn list_others(alloc: Global, marks: &[bool]) -> Result<Vec<bool>, AllocError>
    ensures { IfOk result (λ others. others.items ≡ map not marks.now) }
{
    let mut others = Vec::with_capacity(alloc, marks.len())?;
    for mark in marks {
        others.push(!*mark)?;
    }
    Ok(others)
}

/// Returns which of these results are inside of the change in its scope.
fn inside_change<R: Threads + Sync>(
    rt: &R,
    alloc: Global,
    change: &ScopedChange<'_>,
    current: &CurrentResults<'_, '_, '_>,
    threads: u32,
) -> Result<Vec<bool>, AllocError>
    requires current { AreCurrent current.now }
    ensures { IfOk result (λ inside. inside.items
        ≡ map not (outside_marks (in_scope change.now.scope change.now.change.now)
        (runs_in current.now) (said.active_of current.now.drafts.now))) }
{
    let active = list_active(alloc, current.drafts)?;
    let marks = mark_outside_in(rt, alloc, change, current.runs, &active, threads)?;
    let inside = list_others(alloc, &marks)?;
    Ok(inside)
}

/// Returns which of these results are inside of the change in this scope, if there is a change.
fn inside_by<R: Threads + Sync>(
    rt: &R,
    alloc: Global,
    scope: Scope,
    change: Option<&GatedChange>,
    current: &CurrentResults<'_, '_, '_>,
    threads: u32,
) -> Result<Vec<bool>, AllocError>
    requires current { AreCurrent current.now }
    ensures { IfOk result (λ inside. inside.items
        ≡ said.inside_by scope (option_map (λ c. c.now) change.entry)
        (runs_in current.now) current.now.drafts.now) }
{
    match change {
        None => mark_each(alloc, true, current.drafts),
        Some(change) => {
            inside_change(rt, alloc, &ScopedChange { change, scope }, current, threads)
        }
    }
}

/// Returns which current results are inside of the change in this scope,
/// if a condition requires it.
pub(crate) fn inside_in<R: Threads + Sync>(
    rt: &R,
    alloc: Global,
    scope: Scope,
    conditions: &[GateCondition],
    merge: &MatchedMerge<'_, '_, '_>,
    threads: u32,
) -> Result<Vec<bool>, AllocError>
    requires current { AreCurrent merge.now.current }
    ensures { IfOk result (λ inside. inside.items
        ≡ said.inside_in scope conditions.now (matched_of merge.now)) }
{
    if asks_scope(scope, conditions) {
        inside_by(rt, alloc, scope, merge.change, &merge.current, threads)
    } else {
        mark_each(alloc, true, merge.current.drafts)
    }
}

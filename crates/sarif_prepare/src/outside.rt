//! The results of logs that are outside of a change: they aren't reported, and aren't hits.
ghost use Rattle.std.specs.Prelude.{◌≡◌, ◌≤◌, Bool, IfOk, length, map, not, option_map};
ghost use Rattle.sarif_counts.specs.Counts.{count_at};
ghost use Rattle.sarif_model.specs.Limits.{most_results, most_runs};
ghost use Rattle.sarif_model.specs.declared.kinds.Level.{Level as Grade};
ghost use Rattle.sarif_model.specs.declared.kinds.State.{State as Stand};
ghost use Rattle.sarif_runs.specs.Internal.Opened.{placed_of};
ghost use Rattle.sarif_runs.specs.Internal.Spots.{spots_from};
ghost use Rattle.sarif_scope.specs.Counted as counted;
ghost use Rattle.sarif_prepare.specs.Hidden as hidden;
ghost use Rattle.sarif_prepare.specs.Internal.Outside as said;

use crate::halves::Half;
use crate::left::absent_states;
use crate::pairing::Paired;
use sarif_counts::{Counts, hits};
use sarif_log::{count_results, mask_states};
use sarif_model::{Level, State};
use sarif_options::{Options, Policy};
use sarif_outside::mark_outside;
use sarif_results::Draft;
use sarif_scope::{ChangeFacts, GatedChange};
use std::alloc::{AllocError, Global};
use std::thread::Threads;

/// Returns whether each of these results is active.
fn list_active(alloc: Global, drafts: &[Draft]) -> Result<Vec<bool>, AllocError>
    ensures { IfOk result (λ list. list.items ≡ hidden.active_of drafts.now) }
{
    let mut list = Vec::with_capacity(alloc, drafts.len())?;
    for draft in drafts {
        list.push(!draft.suppressed)?;
    }
    Ok(list)
}

/// Returns the opposite of each mark.
fn list_others(alloc: Global, marks: &[bool]) -> Result<Vec<bool>, AllocError>
    ensures { IfOk result (λ others. others.items ≡ map not marks.now) }
{
    let mut others = Vec::with_capacity(alloc, marks.len())?;
    for mark in marks {
        others.push(!*mark)?;
    }
    Ok(others)
}

/// Counts the results that aren't inside: those of logs that are marked, and all that are left of baselines.
fn count_others(
    alloc: Global,
    current: &Half<'_, '_>,
    paired: &Paired,
    marks: &[bool],
) -> Result<Counts, AllocError>
    requires states { length paired.now.states.items ≡ length current.now.drafts.items }
    requires marks { length marks.now ≡ length current.now.drafts.items }
    requires few { length current.now.drafts.items ≤ most_results }
    requires few_left { length paired.now.left.items ≤ most_results }
    ensures { IfOk result (λ counts. (s : Stand) (l : Grade) (b : Bool) → count_at counts s l b
        ≡ said.others_tallied current.now paired.now marks.now s l b) }
{
    let others = list_others(alloc, marks)?;
    let here = mask_states(alloc, &paired.states, &others)?;
    let there = absent_states(alloc, &paired.left)?;
    let mut counts = Counts::new();
    count_results(&mut counts, &current.drafts, &here);
    count_results(&mut counts, &paired.left, &there);
    Ok(counts)
}

/// Returns the policy whose hits are the results that are reported.
fn for_reports(policy: &Policy) -> Policy
    ensures { result ≡ counted.for_reports policy.now }
{
    Policy {
        fail_on: Level::NoLevel,
        states: policy.states,
        max: policy.max,
    }
}

/// What a change makes of the results of logs.
#[derive(Drop)]
pub(crate) struct Narrowed {
    /// Which of them are active and outside.
    pub(crate) marks: Vec<bool>,
    /// The states of the others; those that are marked have none, so that they aren't reported.
    pub(crate) states: Vec<Option<State>>,
    /// How many results would be hits, and aren't inside.
    pub(crate) outside: u32,
    /// How many results would be reported, and aren't inside.
    pub(crate) unreported: u32,
}

/// Marks the active results of logs that are outside of the change.
pub(crate) fn narrow<R: Threads + Sync>(
    rt: &R,
    alloc: Global,
    change: &GatedChange,
    current: &Half<'_, '_>,
    paired: &Paired,
    options: &Options,
) -> Result<Narrowed, AllocError>
    requires runs { length current.now.runs.items ≤ most_runs }
    requires drafts { length current.now.drafts.items
        ≡ length (spots_from 0 (map placed_of current.now.runs.items)) }
    requires few { length current.now.drafts.items ≤ most_results }
    requires few_left { length paired.now.left.items ≤ most_results }
    requires states { length paired.now.states.items ≡ length current.now.drafts.items }
    ensures { IfOk result (said.IsNarrowed change.now options.now.policy current.now paired.now) }
{
    let active = list_active(alloc, &current.drafts)?;
    let marks = mark_outside(rt, alloc, change, &current.runs, &active, options.workers)?;
    let others = count_others(alloc, current, paired, &marks)?;
    let states = mask_states(alloc, &paired.states, &marks)?;
    let outside = hits(&others, &options.policy);
    let unreported = hits(&others, &for_reports(&options.policy));
    Ok(Narrowed {
        marks,
        states,
        outside,
        unreported,
    })
}

/// Marks them if there is a change.
pub(crate) fn narrow_if<R: Threads + Sync>(
    rt: &R,
    alloc: Global,
    change: Option<&GatedChange>,
    current: &Half<'_, '_>,
    paired: &Paired,
    options: &Options,
) -> Result<Option<Narrowed>, AllocError>
    requires runs { length current.now.runs.items ≤ most_runs }
    requires drafts { length current.now.drafts.items
        ≡ length (spots_from 0 (map placed_of current.now.runs.items)) }
    requires few { length current.now.drafts.items ≤ most_results }
    requires few_left { length paired.now.left.items ≤ most_results }
    requires states { length paired.now.states.items ≡ length current.now.drafts.items }
    ensures { IfOk result (said.AreNarrowed (option_map (λ c. c.now) change.entry)
        options.now.policy current.now paired.now) }
{
    match change {
        Some(change) => {
            let narrowed = narrow(rt, alloc, change, current, paired, options)?;
            Ok(Some(narrowed))
        }
        None => Ok(None),
    }
}

/// Returns what the gate says about the change, if there is one.
pub(crate) fn facts_of(
    change: Option<&GatedChange>,
    narrowed: &Option<Narrowed>,
) -> Option<ChangeFacts>
    ensures { result ≡ said.facts_told (option_map (λ c. c.now) change.entry) narrowed.now }
{
    let (change, narrowed) = (change?, narrowed.as_ref()?);
    Some(ChangeFacts {
        files: change.files,
        lines: change.lines,
        outside: narrowed.outside,
        unreported: narrowed.unreported,
        scope: change.scope,
    })
}

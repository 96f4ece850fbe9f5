//! Counting what is written.
ghost use Rattle.std.specs.Prelude.{◌≡◌, ◌+◌, ◌*◌, ◌<◌, ◌≤◌, ◌^◌, Bool, IfOk, IfSome, drop, length, option_map, sum_by, take};
ghost use Rattle.sarif_model.specs.declared.kinds.Level.{Level as Grade};
ghost use Rattle.sarif_model.specs.declared.kinds.State.{State as Stand};
ghost use Rattle.sarif_counts.specs.Counts.{count_at, total_of};
ghost use Rattle.sarif_log.specs.Internal.Copied.{baseline_marks, counted_if, current_marks, AreFlagsIf};
ghost use Rattle.sarif_log.specs.Internal.Texts.{tallied};
ghost use Rattle.sarif_log.specs.Internal.Written.{AreCounted};
ghost use Rattle.sarif_model.specs.Limits.{most_results};

use crate::merged_text::Side;
use crate::places::mask_states;
use crate::prepared::CopyFlags;
use crate::tally::count_results;
use sarif_counts::Counts;
use sarif_model::State;
use sarif_results::Draft;
use sarif_share::{Sharing, share_parts};
use std::alloc::{AllocError, Global};
use std::thread::Threads;

/// For fewer results it is not worth starting another thread.
const LEAST_SHARED: usize = 8192;

/// Counts the results of these drafts that have a state.
fn count_in_turn(drafts: &[Draft], states: &[Option<State>]) -> Counts
    requires states { length states.now ≡ length drafts.now }
    requires few { length drafts.now ≤ 2 * most_results }
    ensures { AreCounted drafts.now states.now result }
{
    let mut counts = Counts::new();
    count_results(&mut counts, drafts, states);
    counts
}

/// Returns these counts together.
fn add_counts(parts: &[Counts]) -> Counts
    requires few { sum_by total_of parts.now < 2 ^ 32 }
    ensures each { (s : Stand) (l : Grade) (b : Bool)
        → count_at result s l b ≡ sum_by (λ c. count_at c s l b) parts.now }
    ensures total { total_of result ≡ sum_by total_of parts.now }
{
    let mut all = Counts::new();
    for part in parts {
        all = all.plus(*part);
    }
    all
}

/// Counts the results of these drafts that have a state, in at most `threads` threads, this one among them.
fn count_all<R: Threads + Sync>(
    rt: &R,
    alloc: Global,
    drafts: &[Draft],
    states: &[Option<State>],
    threads: u32,
) -> Result<Counts, AllocError>
    requires states { length states.now ≡ length drafts.now }
    requires few { length drafts.now ≤ 2 * most_results }
    ensures { IfOk result (AreCounted drafts.now states.now) }
{
    let sharing = Sharing {
        rt,
        alloc,
        threads,
        least: LEAST_SHARED,
    };
    let part = move |start: usize, some: &[Draft]| -> Counts
        requires within { start + length some.now ≤ length states.now }
        requires few { length some.now ≤ 2 * most_results }
        ensures { AreCounted some.now
            (take (length some.now) (drop start states.entry.now)) result }
    { count_in_turn(some, &states[start..start + some.len()]) };
    let parts = share_parts(&sharing, drafts, &part)?;
    Ok(add_counts(&parts))
}

/// Counts the results of a side that are written and, if there are marks, not marked. It is done in at most `threads`
/// threads, this one among them. Returns `AllocError` if memory runs out.
fn count_side<R: Threads + Sync>(
    rt: &R,
    alloc: Global,
    side: &Side,
    marks: Option<&[bool]>,
    threads: u32,
) -> Result<Counts, AllocError>
    requires states { length side.now.states.items ≡ length side.now.drafts.items }
    requires few { length side.now.drafts.items ≤ 2 * most_results }
    requires marks { IfSome marks (λ all. length all.now ≡ length side.now.states.items) }
    ensures { IfOk result (AreCounted side.now.drafts.items
        (counted_if (option_map (λ all. all.now) marks.entry) side.now.states.items)) }
{
    match marks {
        Some(all) => {
            let states = mask_states(alloc, &side.states, all)?;
            count_all(rt, alloc, &side.drafts, &states, threads)
        }
        None => count_all(rt, alloc, &side.drafts, &side.states, threads),
    }
}

/// The marks of the results of logs, if there are any.
fn current_flags(copies: &Option<CopyFlags>) -> Option<&[bool]>
    ensures { option_map (λ all. all.now) result ≡ current_marks copies.now }
{
    match copies {
        Some(flags) => Some(&flags.current),
        None => None,
    }
}

/// The marks of the written results of baselines, if there are any.
fn baseline_flags(copies: &Option<CopyFlags>) -> Option<&[bool]>
    ensures { option_map (λ all. all.now) result ≡ baseline_marks copies.now }
{
    match copies {
        Some(flags) => Some(&flags.baseline),
        None => None,
    }
}

/// Counts the results that are written: all of the logs, and those of the baselines that have a state; copies aren't
/// counted where it is known which they are. It is done in at most `threads` threads, this one among them. Returns
/// `AllocError` if memory for the counts of parts runs out.
pub(crate) fn count_sides<R: Threads + Sync>(
    rt: &R,
    alloc: Global,
    current: &Side,
    baseline: &Side,
    copies: &Option<CopyFlags>,
    threads: u32,
) -> Result<Counts, AllocError>
    requires current { length current.now.states.items ≡ length current.now.drafts.items }
    requires baseline { length baseline.now.states.items ≡ length baseline.now.drafts.items }
    requires few { length current.now.drafts.items + length baseline.now.drafts.items
        ≤ 2 * most_results }
    requires flags { AreFlagsIf copies.now current.now baseline.now }
    ensures { IfOk result (λ counts. (s : Stand) (l : Grade) (b : Bool) → count_at counts s l b
        ≡ tallied current.now.drafts.items
        (counted_if (current_marks copies.now) current.now.states.items) s l b
        + tallied baseline.now.drafts.items
        (counted_if (baseline_marks copies.now) baseline.now.states.items) s l b) }
{
    let here = count_side(rt, alloc, current, current_flags(copies), threads)?;
    let there = count_side(rt, alloc, baseline, baseline_flags(copies), threads)?;
    Ok(here.plus(there))
}

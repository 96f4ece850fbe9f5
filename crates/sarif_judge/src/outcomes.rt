//! The outcomes of all results, judged by workers.
ghost use Rattle.std.specs.Prelude.{◌≡◌, ◌≤◌, ◌++◌, map, length, IfOk, OnOk};
ghost use Rattle.std.specs.List.{flat_map};
ghost use Rattle.sarif_model.specs.Run.{results_total};
ghost use Rattle.sarif_runs.specs.Internal.Opened.{placed_of};
ghost use Rattle.sarif_results.specs.Internal.Outcomes.{all_outcomes};
ghost use Rattle.sarif_dispatch.specs.Limits.{most_room};
ghost use Rattle.sarif_judge.specs.Internal.Flattened.{flattened, flattened_from, within_shards};
ghost use Rattle.sarif_model.specs.Limits.{most_results, most_runs, most_workers};

use crate::judging::Judging;
use crate::shard::Shard;
use crate::team::Team;
use sarif_gather::{Gate, GatherFault, Lists, gather};
use sarif_results::Outcome;
use sarif_runs::{OpenedRun, list_spots};
use sarif_suppress::Suppressions;
use std::alloc::{AllocError, Global};
use std::sync::Wait;
use std::thread::Threads;

/// How many shards there are for each worker: enough that all of them end at about the same time.
const SHARDS_A_WORKER: usize = 16;

/// The shards, the last one first.
fn stack_shards(alloc: Global, mut lists: Lists<Shard, ()>) -> Result<Vec<Vec<Shard>>, AllocError>
    ensures { IfOk result (λ stack. flattened_from stack.items ≡ flattened lists) }
{
    let mut stack = Vec::with_capacity(alloc, lists.runs() as usize)?;
    while let Some((shards, _tail)) = lists.pop() {
        stack.push(shards)?;
    }
    Ok(stack)
}

/// Moves the outcomes of some shards to the end of the others.
fn append_shards(all: &mut Vec<Outcome>, shards: Vec<Shard>) -> Result<(), AllocError>
    ensures { OnOk result (all.new.items ≡ all.old.items ++ within_shards shards.items) }
{
    for shard in shards {
        let mut outcomes = shard.into_outcomes();
        all.append(&mut outcomes)?;
    }
    Ok(())
}

/// Takes all off a stack, and gives their outcomes in one list.
fn flatten(alloc: Global, mut stack: Vec<Vec<Shard>>) -> Result<Vec<Outcome>, AllocError>
    ensures { IfOk result (λ all. all.items ≡ flattened_from stack.items) }
{
    let mut all = Vec::new(alloc);
    while let Some(shards) = stack.pop() {
        append_shards(&mut all, shards)?;
    }
    Ok(all)
}

/// Has a team of 1 to `MOST_WORKERS` workers judge all results of these runs: the item and the draft of each, in the
/// order of runs and results, whichever worker was first. No result depends on the team's room, which is 1
/// to `most_room` parcels. `observer` observes the judging of shards. Returns `OutOfMemory` if memory runs out, or
/// `NoWorker` if a thread cannot be started.
pub fn judge<G: Gate + Sync, R: Threads + Wait + Sync>(
    rt: &R,
    alloc: Global,
    runs: &[OpenedRun<'_, '_>],
    file: &Suppressions,
    team: Team,
    observer: &G,
) -> Result<Vec<Outcome>, GatherFault>
    requires workers { (1 ≤ team.workers) × (team.workers ≤ most_workers) }
    requires room { (1 ≤ team.room) × (team.room ≤ most_room) }
    requires few { length runs.now ≤ most_runs }
    requires few_results { results_total (map (λ p. p.run) (map placed_of runs.now))
        ≤ most_results }
    ensures { IfOk result (λ outcomes. outcomes.items
        ≡ all_outcomes file.now (map placed_of runs.now)) }
{
    let spots = list_spots(alloc, runs)?;
    if spots.is_empty() {
        return Ok(Vec::new(alloc));
    }
    let parts = team.workers as usize * SHARDS_A_WORKER;
    let size = spots.len() / parts + 1;
    let work = Judging {
        runs,
        spots: &spots,
        file,
        size,
        shards: (spots.len() / size + 1) as u32,
    };
    let lists = gather(rt, alloc, &work, team.workers, team.room, observer)?;
    let stack = stack_shards(alloc, lists)?;
    let all = flatten(alloc, stack)?;
    Ok(all)
}

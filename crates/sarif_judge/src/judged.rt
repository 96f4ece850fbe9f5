//! Judging runs, up to their first error.
ghost use Rattle.std.specs.Prelude.{◌≡◌, ◌≤◌, map, length, IfOk};
ghost use Rattle.sarif_model.specs.Run.{results_total};
ghost use Rattle.sarif_runs.specs.Judging.{faults_of_runs, run_values};
ghost use Rattle.sarif_runs.specs.Internal.Opened.{placed_of};
ghost use Rattle.sarif_results.specs.Internal.Outcomes.{all_outcomes};
ghost use Rattle.sarif_model.specs.MergeFault.{IsQuiet};
ghost use Rattle.sarif_model.specs.FirstFault.{Answers};
ghost use Rattle.sarif_results.specs.Internal.Judged.{placed_in};
ghost use Rattle.sarif_dispatch.specs.Limits.{most_room};
ghost use Rattle.sarif_judge.specs.Internal.ResourceFault.{resource_fault_of};
ghost use Rattle.sarif_model.specs.Limits.{most_results, most_runs, most_workers};

use crate::first_fault::fault_of_runs;
use crate::outcomes::judge;
use crate::team::Team;
use sarif_gather::{Gate, GatherFault};
use sarif_model::{At, Cause, MergeFault};
use sarif_results::Judged;
use sarif_runs::OpenedRun;
use sarif_suppress::Suppressions;
use std::alloc::Global;
use std::sync::Wait;
use std::thread::Threads;

/// The rejection if memory ran out or a thread could not be started.
fn refusal_of(fault: GatherFault) -> MergeFault
    ensures { result ≡ resource_fault_of fault }
{
    let cause = match fault {
        GatherFault::NoWorker => Cause::NoWorker,
        GatherFault::OutOfMemory => Cause::OutOfMemory,
    };
    MergeFault::with_place(At::Nowhere, cause)
}

/// Has a team judge the results of runs, as [`judge`](crate::judge) does. `observer` observes them. A rejection is the
/// first error of the runs and their results in order, whichever worker was first, or `OutOfMemory` or
/// `NoWorker`.
#[tactic(auto, using(crate::proofs::ResourceFaults::lacks_resources, crate::proofs::ResourceFaults::exits_with_two))]
pub fn judge_runs<'t, 'a, G: Gate + Sync, R: Threads + Wait + Sync>(
    rt: &R,
    alloc: Global,
    runs: Vec<OpenedRun<'t, 'a>>,
    file: &Suppressions,
    team: Team,
    observer: &G,
) -> Result<Judged<'t, 'a>, MergeFault>
    requires workers { (1 ≤ team.workers) × (team.workers ≤ most_workers) }
    requires room { (1 ≤ team.room) × (team.room ≤ most_room) }
    requires few { length runs.items ≤ most_runs }
    requires few_results { results_total (run_values (map placed_of runs.items)) ≤ most_results }
    ensures runs { IfOk result (λ judged. placed_in judged ≡ map placed_of runs.entry.items) }
    ensures outcomes { IfOk result
        (λ judged. judged.outcomes.items ≡ all_outcomes file.now (placed_in judged)) }
    ensures faults { Answers (faults_of_runs (map placed_of runs.entry.items)) result }
    ensures quiet { IsQuiet result }
{
    let outcomes = match judge(rt, alloc, &runs, file, team, observer) {
        Ok(outcomes) => outcomes,
        Err(fault) => return Err(refusal_of(fault)),
    };
    if let Some(fault) = fault_of_runs(&runs, &outcomes) {
        return Err(fault);
    }
    Ok(Judged { runs, outcomes })
}

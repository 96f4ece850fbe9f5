//! The first error of runs and results, in their order.
ghost use Rattle.std.specs.Prelude.{◌≡◌, ◌≤◌, map, length, IfSome};
ghost use Rattle.std.specs.List.{flat_map};
ghost use Rattle.sarif_runs.specs.Judging.{first_bad, run_faults, faults_of_runs, items_of};
ghost use Rattle.sarif_runs.specs.Internal.Opened.{placed_of};
ghost use Rattle.sarif_model.specs.MergeFault.{exit_status};
ghost use Rattle.sarif_model.specs.FirstFault.{first};
ghost use Rattle.sarif_model.specs.Limits.{most_results};

use sarif_model::{At, Cause, MergeFault};
use sarif_results::Outcome;
use sarif_runs::{Item, OpenedRun};

/// The error of the first invalid result of a run.
#[tactic(auto, using(sarif_model::proofs::QuietFaults::quiet_fault))]
fn first_bad_result(run: &OpenedRun<'_, '_>, outcomes: &[Outcome]) -> Option<MergeFault>
    requires { length outcomes.now ≤ most_results }
    ensures first { result ≡ first (first_bad (At.Single run.now.source run.now.number) 0
        (map (λ o. o.item) outcomes.now)) }
    ensures quiet { IfSome result (λ fault. exit_status fault.cause ≡ 2) }
{
    for (seq, outcome) in outcomes.iter().enumerate() {
        if let Item::Bad(fault) = &outcome.item {
            let at = At::Single(run.source, run.number, seq as u32);
            return Some(MergeFault::with_place(at, Cause::from(*fault)));
        }
    }
    None
}

/// The error of opening a run, otherwise that of its first invalid result.
#[tactic(auto, using(sarif_model::proofs::QuietFaults::quiet_fault))]
fn fault_of_run(run: &OpenedRun<'_, '_>, outcomes: &[Outcome]) -> Option<MergeFault>
    requires few { length outcomes.now ≤ most_results }
    requires judged { map (λ o. o.item) outcomes.now ≡ items_of (placed_of run.now) }
    ensures first { result ≡ first (run_faults (placed_of run.now)) }
    ensures quiet { IfSome result (λ fault. exit_status fault.cause ≡ 2) }
{
    match run.fault() {
        Some(fault) => {
            let at = At::Run(run.source, run.number);
            Some(MergeFault::with_place(at, Cause::from(fault)))
        }
        None => first_bad_result(run, outcomes),
    }
}

/// The first error of the runs in order. The order in which results were judged doesn't matter.
pub(crate) fn fault_of_runs(
    runs: &[OpenedRun<'_, '_>],
    mut outcomes: &[Outcome],
) -> Option<MergeFault>
    requires { map (λ o. o.item) outcomes.now ≡ flat_map items_of (map placed_of runs.now) }
    ensures first { result ≡ first (faults_of_runs (map placed_of runs.now)) }
    ensures quiet { IfSome result (λ fault. exit_status fault.cause ≡ 2) }
{
    for run in runs {
        let (these, later) = outcomes.split_at(run.len() as usize);
        let found = fault_of_run(run, these);
        if found.is_some() {
            return found;
        }
        outcomes = later;
    }
    None
}

//! What the conditions of a policy decide about matched results.
ghost use Rattle.std.specs.Prelude.{◌≡◌, List, IfOk};
ghost use Rattle.sarif_prepare.specs.Internal.Together.{AreTogether, IsPaired};
ghost use Rattle.sarif_prepare.specs.Kept.{change_in};
ghost use Rattle.sarif_deciding.specs.Ruling.{ruling_in};
ghost use Rattle.sarif_prepare.specs.Ruled.{decided_by, matched_in, policy_in};
ghost use Rattle.sarif_runs.specs.Placed.{Placed};

use crate::file_read::FileRead;
use crate::pairing::PairedSides;
use sarif_conditions::Decided;
use sarif_deciding::{CurrentResults, Deciding, LeftResults, MatchedMerge, decide_merge};
use sarif_options::Options;
use sarif_policy::GatePolicy;
use std::alloc::{AllocError, Global};
use std::thread::Threads;

/// Returns what the conditions of this policy decide about matched results.
fn rule_by<R: Threads + Sync>(
    rt: &R,
    alloc: Global,
    sides: &PairedSides<'_, '_>,
    rules: &FileRead<'_>,
    options: &Options,
    policy: &GatePolicy,
) -> Result<Decided, AllocError>
    requires together { (current_runs : List Placed) × (baseline_runs : List Placed)
        × AreTogether rules.now.file.now current_runs baseline_runs
        sides.now.current sides.now.baselines }
    requires paired { IsPaired options.now.checks.matching
        sides.now.current sides.now.baselines sides.now.paired }
    ensures { IfOk result (λ ruling. (current_runs baseline_runs : List Placed)
        → AreTogether rules.now.file.now current_runs baseline_runs
        sides.now.current sides.now.baselines
        → ruling ≡ ruling_in policy.now.conditions (matched_in options.now.checks.matching
        rules.now.file.now (change_in rules.now) current_runs baseline_runs)) }
{
    let merge = MatchedMerge {
        current: CurrentResults {
            runs: &sides.current.runs,
            records: &sides.current.records,
            drafts: &sides.current.drafts,
            states: &sides.paired.states,
        },
        before: LeftResults {
            runs: &sides.baselines.runs,
            spots: &sides.baselines.spots,
            records: &sides.baselines.records,
            taken: &sides.paired.taken,
            left: &sides.paired.left,
        },
        file: rules.file,
        change: rules.change,
    };
    let deciding = Deciding {
        seed: options.seed,
        threads: options.workers + 1,
    };
    let decided = decide_merge(rt, alloc, &merge, policy, deciding)?;
    Ok(decided)
}

/// Returns what the conditions of the policy decide about matched results, if there is a policy.
pub(crate) fn rule_sides<R: Threads + Sync>(
    rt: &R,
    alloc: Global,
    sides: &PairedSides<'_, '_>,
    rules: &FileRead<'_>,
    options: &Options,
) -> Result<Option<Decided>, AllocError>
    requires together { (current_runs : List Placed) × (baseline_runs : List Placed)
        × AreTogether rules.now.file.now current_runs baseline_runs
        sides.now.current sides.now.baselines }
    requires paired { IsPaired options.now.checks.matching
        sides.now.current sides.now.baselines sides.now.paired }
    ensures { IfOk result (λ ruling. (current_runs baseline_runs : List Placed)
        → AreTogether rules.now.file.now current_runs baseline_runs
        sides.now.current sides.now.baselines
        → ruling ≡ decided_by (policy_in rules.now) (matched_in options.now.checks.matching
        rules.now.file.now (change_in rules.now) current_runs baseline_runs)) }
{
    match rules.policy {
        Some(policy) => {
            let ruling = rule_by(rt, alloc, sides, rules, options, policy)?;
            Ok(Some(ruling))
        }
        None => Ok(None),
    }
}

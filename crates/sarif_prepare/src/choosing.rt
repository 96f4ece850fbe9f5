//! Preparing a merge as its checks say how results are counted.
ghost use Rattle.std.specs.Prelude.{◌≡◌, false, true, IfOk, IfErr};
ghost use Rattle.sarif_log.specs.LogBy.{expired_of, limited_records};
ghost use Rattle.sarif_prepare.specs.Asked.{choice_in, reporting_in, upkeep_in};
ghost use Rattle.sarif_prepare.specs.By.{merge_by, IsPreparedBy};
ghost use Rattle.sarif_prepare.specs.Kept.{bytes_of, change_in, IsKept, IsUnkept};
ghost use Rattle.sarif_prepare.specs.Ruled.{policy_in};
ghost use Rattle.sarif_results.specs.Internal.Judged.{placed_in, IsJudged};
ghost use Rattle.sarif_upkeep.specs.Internal.IsMatched.{IsFileOf};

use crate::asked::Asked;
use crate::file_read::FileRead;
use crate::once::prepare_once;
use crate::preparing::prepare;
use sarif_log::Prepared;
use sarif_model::MergeFault;
use sarif_results::Judged;
use std::alloc::Global;
use std::thread::Threads;

/// Returns what [`prepare_once`](crate::prepare_once) returns if copies aren't counted, and otherwise what
/// [`prepare`](crate::prepare) returns. The errors are the same.
pub fn prepare_by<R: Threads + Sync>(
    rt: &R,
    alloc: Global,
    current: Judged<'_, '_>,
    baseline: Judged<'_, '_>,
    rules: &FileRead<'_>,
    asked: &Asked<'_>,
) -> Result<Prepared, MergeFault>
    requires read { IsFileOf (bytes_of rules.now) rules.now.file.now }
    requires current { IsJudged rules.now.file.now false current }
    requires baseline { IsJudged rules.now.file.now true baseline }
    ensures prepared { IfOk result (IsPreparedBy asked.now.options.now.checks
        rules.now.file.now (placed_in current.entry) (placed_in baseline.entry)
        (change_in rules.now) asked.now.options.now.policy (policy_in rules.now)
        (reporting_in asked.now)) }
    ensures expired { IfOk result (λ prepared. prepared.expired
        ≡ expired_of rules.now.file.now
        (limited_records rules.now.file.now (placed_in current.entry))) }
    ensures kept { IfOk result (λ prepared. IsKept (merge_by (policy_in rules.now)
        asked.now.options.now.checks rules.now.file.now (bytes_of rules.now) (change_in rules.now)
        asked.now.options.now.policy (choice_in asked.now)
        (placed_in current.entry) (placed_in baseline.entry)) (upkeep_in asked.now) prepared.life) }
    ensures unkept { IfErr result (IsUnkept (merge_by (policy_in rules.now)
        asked.now.options.now.checks rules.now.file.now (bytes_of rules.now) (change_in rules.now)
        asked.now.options.now.policy (choice_in asked.now)
        (placed_in current.entry) (placed_in baseline.entry)) (upkeep_in asked.now)) }
{
    if asked.options.checks.once {
        prepare_once(rt, alloc, current, baseline, rules, asked)
    } else {
        prepare(rt, alloc, current, baseline, rules, asked)
    }
}

//! What the conditions of a policy decide about a merge.
ghost use Rattle.std.specs.Prelude.{◌≡◌, ◌+◌, IfOk, List, length, map};
ghost use Rattle.sarif_conditions.specs.Judged.{judged_of};
ghost use Rattle.sarif_policy.specs.declared.condition.GateCondition.{GateCondition as Condition};
ghost use Rattle.sarif_deciding.specs.Internal.Looked.{IsAbsentLooked, IsCurrentLooked};
ghost use Rattle.sarif_deciding.specs.Merge.{matched_of, AreCurrent, AreLeft};
ghost use Rattle.sarif_deciding.specs.Results.{results_in};
ghost use Rattle.sarif_deciding.specs.Ruling.{ruling_in};

use crate::absent::{AbsentLooked, judge_absent, look_at_absent};
use crate::current::{CurrentLooked, judge_current, look_at_current};
use crate::merge::{Deciding, MatchedMerge};
use sarif_conditions::{Decided, JudgedResult, decide};
use sarif_policy::GatePolicy;
use std::alloc::{AllocError, Global};
use std::thread::Threads;

/// Returns the results of a merge as conditions see them: the current ones in order, and then those that are absent.
fn judge_both<'r>(
    alloc: Global,
    merge: &'r MatchedMerge<'_, '_, '_>,
    current: &'r CurrentLooked<'_, '_, '_>,
    absent: &'r AbsentLooked<'_, '_, '_>,
) -> Result<Vec<JudgedResult<'r>>, AllocError>
    requires current { AreCurrent merge.now.current }
    requires left { AreLeft merge.now.before }
    requires now { (cs : List Condition)
        × IsCurrentLooked cs (matched_of merge.now) current.now }
    requires gone { (cs : List Condition) × IsAbsentLooked cs (matched_of merge.now) absent.now }
    ensures judged { IfOk result (λ judged. (cs : List Condition)
        → IsCurrentLooked cs (matched_of merge.now) current.now
        → IsAbsentLooked cs (matched_of merge.now) absent.now
        → map judged_of judged.items ≡ results_in cs (matched_of merge.now)) }
    ensures count { IfOk result (λ judged. length judged.items
        ≡ length merge.now.current.drafts.now + length merge.now.before.left.now) }
{
    let mut results = judge_current(alloc, merge, current)?;
    let mut others = judge_absent(alloc, merge, absent)?;
    results.append(&mut others)?;
    Ok(results)
}

/// Returns what the conditions of the policy decide about the results of a merge: the current ones in order, and then
/// those of baselines that match no current result, as absent.
/// It reads only what a condition requires.
/// Returns `AllocError` if memory runs out.
pub fn decide_merge<R: Threads + Sync>(
    rt: &R,
    alloc: Global,
    merge: &MatchedMerge<'_, '_, '_>,
    policy: &GatePolicy,
    deciding: Deciding,
) -> Result<Decided, AllocError>
    requires current { AreCurrent merge.now.current }
    requires left { AreLeft merge.now.before }
    ensures { IfOk result
        (λ decided. decided ≡ ruling_in policy.now.conditions (matched_of merge.now)) }
{
    let conditions = policy.conditions.as_slice();
    let current = look_at_current(rt, alloc, merge, conditions, deciding.threads)?;
    let absent = look_at_absent(rt, alloc, merge, conditions, deciding)?;
    let results = judge_both(alloc, merge, &current, &absent)?;
    let decided = decide(alloc, deciding.seed, policy, &results)?;
    Ok(decided)
}

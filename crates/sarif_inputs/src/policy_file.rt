//! The policy of the gate of a merge.
ghost use Rattle.std.specs.Prelude.{◌≡◌, IfOk, option_map};
ghost use Rattle.sarif_model.specs.FirstFault.{Answers};
ghost use Rattle.sarif_model.specs.MergeFault.{IsQuiet};
ghost use Rattle.sarif_inputs.specs.PolicyIn as said;

use sarif_model::{At, Cause, Fault, MergeFault, Refusal, Source};
use sarif_policy::{FilterList, GatePolicy, PolicyCause, PolicyFault, PolicyPlace, read_policy};
use std::alloc::{AllocError, Global};

fn fault_of_cause(cause: PolicyCause) -> Fault
    ensures { result ≡ said.fault_of_cause cause }
{
    match cause {
        PolicyCause::NotJson => Fault::NotJson,
        PolicyCause::NotPolicy => Fault::NotPolicy,
        PolicyCause::WrongVersion => Fault::WrongVersion,
        PolicyCause::NoCondition => Fault::NoCondition,
        PolicyCause::TooMany => Fault::TooMany,
        PolicyCause::BadCondition => Fault::BadCondition,
        PolicyCause::BadFilter => Fault::BadFilter,
        PolicyCause::EmptyFilter => Fault::EmptyFilter,
        PolicyCause::SameName => Fault::SameName,
        PolicyCause::NeedsDiff => Fault::NeedsDiff,
    }
}

/// Returns the place of an error of the policy among the places of a merge.
fn place_of_policy(at: PolicyPlace) -> At
    ensures { result ≡ said.place_of_policy at }
{
    match at {
        PolicyPlace::Whole => At::Whole(Source::Policy),
        PolicyPlace::Condition(number) => At::Condition(number),
        PolicyPlace::Filter(number, FilterList::Only, filter) => At::Only(number, filter),
        PolicyPlace::Filter(number, FilterList::Except, filter) => At::Except(number, filter),
    }
}

/// Returns the error of a policy, with its place.
fn merge_fault_of_policy(wrong: PolicyFault) -> MergeFault
    ensures { result ≡ said.merge_fault_of_policy wrong }
{
    let cause = Cause::Of(fault_of_cause(wrong.cause));
    MergeFault::with_place(place_of_policy(wrong.at), cause)
}

/// Returns the policy that a file with these bytes describes, if there is a policy. `has_diff` says whether there is a
/// diff, which a condition on the change needs. A rejection is the first error of the policy: `NotJson`, `NotPolicy`,
/// `WrongVersion`, `NoCondition` or `TooMany` at the policy; `BadCondition`, `SameName` or `NeedsDiff` at a condition;
/// or `BadFilter` or `EmptyFilter` at a filter of `only` or `except`. `OutOfMemory` has no place.
#[tactic(auto, using(crate::proofs::PolicyAnswers::quiet_policy, crate::proofs::PolicyAnswers::policy_refused, crate::proofs::PolicyAnswers::policy_faultless, crate::proofs::PolicyAnswers::policy_is_read))]
pub fn look_at_policy(
    alloc: Global,
    bytes: Option<&[u8]>,
    has_diff: bool,
) -> Result<Option<GatePolicy>, MergeFault>
    ensures read { IfOk result (λ policy. said.conditions_in policy ≡ said.conditions_or_none
        (said.policy_read has_diff (option_map (λ b. b.now) bytes.entry))) }
    ensures faults { Answers (said.faults_of_policy
        (said.policy_read has_diff (option_map (λ b. b.now) bytes.entry))) result }
    ensures quiet { IsQuiet result }
{
    let Some(bytes) = bytes else {
        return Ok(None);
    };
    match read_policy(alloc, bytes, has_diff) {
        Ok(policy) => Ok(Some(policy)),
        Err(Refusal::Fault(wrong)) => Err(merge_fault_of_policy(wrong)),
        Err(Refusal::OutOfMemory) => Err(MergeFault::from(AllocError)),
    }
}

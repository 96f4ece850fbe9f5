//! Laws of whole merges in which copies aren't counted.
#![tactic(auto)]

mod laws;
mod policy;

pub use laws::{
    copies_are_written_as_their_findings, copies_may_be_taken_out,
    counts_and_copies_are_all_results, findings_are_as_many_in_any_order,
    logs_of_copies_change_no_count, the_log_without_its_copies_has_the_findings,
};
pub use policy::{
    accepting_takes_the_hits_without_copies, conditions_decide_without_copies,
    findings_follow_the_policy_without_copies, policies_decide_the_same_if_copies_are_taken_out,
};

//! What the conditions of a policy decide about the results of a merge, and what a gate says about them: hits, limits, the
//! verdict, the gate object and the summary.
#![tactic(auto)]

mod asking;
mod checking;
mod decided;
mod deciding;
mod facts;
mod gate;
mod judged;
mod laws;
mod outcome;
mod standing;
mod summary;
mod trying;

pub use decided::{Decided, decide};
pub use facts::{ConditionFacts, PolicyFacts, verdict_of_policy};
pub use gate::gate_value_of_policy;
pub use judged::JudgedResult;
pub use laws::{
    a_condition_may_be_split, a_hit_is_one_of_a_condition, a_limit_grows_by_absent_results_at_most,
    accepting_leaves_the_other_hits, one_condition_is_the_options,
    the_gate_fails_if_a_condition_fails, the_order_of_conditions_changes_nothing,
};
pub use summary::summary_of_policy;

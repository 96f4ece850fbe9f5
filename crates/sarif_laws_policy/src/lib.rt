//! Laws of merges with a policy: what its conditions decide is what reports show, and what is accepted. They hold no code
//! that runs.
#![tactic(auto)]

mod laws;

pub use laws::{accepting_takes_the_hits_of_a_policy, findings_of_a_policy_follow_its_conditions};

//! The security severity of the results of opened runs.
#![tactic(auto)]

mod listed;
mod own;
mod rated_run;
mod rules;

pub use own::own_ratings;
pub use rated_run::{RatedRun, rate_runs};

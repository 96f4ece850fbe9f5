//! The known log: a baseline that people can read, review and merge. It has exactly what matching and states
//! need of each result.
#![tactic(auto)]

mod choosing;
mod chosen;
mod known_log;
mod known_result;
mod known_run;
mod lines;
mod members;
mod order;
mod region;
mod standing;

pub use choosing::{Choice, Results, keep_run, know_run};
pub use chosen::KnownRun;
pub use known_log::known_text;
pub use standing::{Standing, standing_of};

//! The options of a merge: what the gate fails on, what is required of runs, today's date, the number of worker
//! threads; and what is requested for later merges.
#![tactic(auto)]

mod checks;
mod options;
mod policy;
mod upkeep;

pub use checks::Checks;
pub use options::Options;
pub use policy::{Policy, States};
pub use upkeep::{Knowing, Renewal, Upkeep};

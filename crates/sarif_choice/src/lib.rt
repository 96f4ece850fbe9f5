//! Which hits are accepted, if only those at some places or of some rules are.
#![tactic(auto)]

mod choice;
mod choosing;
mod names;
mod tables;

pub use choice::{Choice, Choosing, Unfit};
pub use choosing::choose;

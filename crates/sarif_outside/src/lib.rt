//! Which results of opened runs are outside of a change.
#![tactic(auto)]

mod asked;
mod marking;
mod places;
mod scoped;

pub use marking::{mark_outside, mark_outside_in};
pub use scoped::ScopedChange;

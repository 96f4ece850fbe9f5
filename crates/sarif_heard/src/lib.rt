//! Which tools were heard in the runs of a merge.
#![tactic(auto)]

mod tools;

pub use tools::heard_in;

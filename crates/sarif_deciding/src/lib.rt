//! The results of a merge as the conditions of its policy see them, and what the conditions decide.
#![tactic(auto)]

mod absent;
mod asked;
mod current;
mod deciding;
mod gone;
mod inside;
mod merge;
mod rated;
mod ratings;
mod seen;

pub use deciding::decide_merge;
pub use merge::{CurrentResults, Deciding, LeftResults, MatchedMerge};

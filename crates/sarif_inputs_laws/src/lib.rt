//! Laws of the inputs of merges, each the contract of a function that does nothing.
#![tactic(auto)]

mod laws;

pub use laws::{
    ignored_fingerprints_may_be_left_out, parts_of_a_merge_are_accepted, tools_may_be_merged_apart,
};

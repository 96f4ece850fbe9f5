//! Laws of the records of results, each the contract of a function that does nothing.
#![tactic(auto)]

mod laws;

pub use laws::{ignored_fingerprints_may_be_missing, ignoring_changes_no_error};

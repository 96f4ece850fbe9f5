//! Laws of whole merges on external property files: what allowing them changes.
#![tactic(auto)]

mod laws;

pub use laws::{allowing_external_files_changes_no_merge, external_files_change_no_result};

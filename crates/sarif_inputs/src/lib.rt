//! The inputs of a merge: the indexes of its sources, the runs of all of them, opened, and the entries of its
//! suppression file; or the first error of these.
#![tactic(auto)]

mod change_file;
mod indexes;
mod laws;
mod opening;
mod policy_file;
mod read_run;
mod reading;
mod snippets;
mod sources;
mod suppression_file;

pub use change_file::look_at_change;
pub use indexes::index_sources;
pub use laws::allowing_external_files_changes_nothing_without_them;
pub use policy_file::look_at_policy;
pub use snippets::read_snippets;
pub use sources::{Opening, Runs, check_numbers, open_sources};
pub use suppression_file::read_file;

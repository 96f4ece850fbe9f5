//! Accepting results: the entries that accept them, the new suppression file, and the list of unused entries.
#![tactic(auto)]

mod asked;
mod entry;
mod heard;
mod indentation;
mod keep;
mod marked;
mod old_file;
mod once;
mod printing;
mod reading;
mod renewing;
mod unused;
mod weighing;

pub use entry::entry_for;
pub use heard::{Heard, ToolRun};
pub use keep::kept_entries;
pub use once::each_once;
pub use reading::rules_added;
pub use renewing::new_file;
pub use unused::unused_lines;

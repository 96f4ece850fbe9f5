//! The merged log: what it is made of, counted and put together again in its runs.
#![tactic(auto)]

mod assembling;
mod copies;
mod counting;
mod facts;
mod laws;
mod merged;
mod merged_text;
mod places;
mod prepared;
mod results_text;
mod run_parts;
mod run_text;
mod runs_text;
mod tally;
mod written;

pub use assembling::assemble;
pub use copies::{CopyPlace, name_copies};
pub use facts::Facts;
pub use laws::suppressed_results_are_counted_as_suppressed;
pub use merged::Merged;
pub use merged_text::{Side, log_text};
pub use places::mask_states;
pub use prepared::{CopyFlags, Prepared, Spent};
pub use run_parts::RunParts;
pub use tally::count_results;

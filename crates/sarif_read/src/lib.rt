//! A log and its runs, read by their index; a single result of a run. `whole.rt` has the calls for whole values,
//! which the merge doesn't make.
#![tactic(auto)]

mod absent;
mod filling;
mod indexed_run;
mod indexing;
mod laws;
mod listed;
mod location;
mod members;
mod nodes;
mod picking;
mod read_fault;
mod read_message;
mod reading;
mod references;
mod success;
mod whole;

pub use absent::is_marked_absent;
pub use indexed_run::IndexedRun;
pub use indexing::index_log;
pub use laws::{
    allowing_external_files_changes_nothing_else, read_runs_hold_no_fraction,
    runs_have_results_where_they_are_listed, stripped_holds_no_fraction, stripping_twice_is_once,
};
pub use read_fault::{ReadFault, refused_text};
pub use read_message::ReadMessage;
pub use whole::{Log, RawRun, read_log, strip, strip_in_place};

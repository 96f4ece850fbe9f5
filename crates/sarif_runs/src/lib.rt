//! A run, opened: its rules, overrides and artifacts; and the record of a result. `whole.rt` has the calls for whole
//! runs, which the merge doesn't make.
#![tactic(auto)]

mod component;
mod head;
mod ignoring;
mod invocation;
mod item;
mod laws;
mod making;
mod open;
mod opened;
mod reading;
mod run_options;
mod spots;
mod whole;

pub use component::{Component, Descriptor, Rule};
pub use head::RunHead;
pub use invocation::{Invocation, Override};
pub use item::Item;
pub use laws::external_files_change_no_record;
pub use making::{copy_tool_name, make_record_of};
pub use open::open_value;
pub use opened::OpenedRun;
pub use run_options::{IgnoredNames, RecordOptions, RunOptions};
pub use spots::{Spot, list_spots};
pub use whole::{make_record, open_run, read_parts};

//! What one run of `sarif_gate` does, over readers and writers of any kind: it merges, writes the log, the other
//! outputs and the summary, and reports what stopped it.
#![tactic(auto)]

mod cause_name;
mod complaint;
mod ending;
mod line;
mod notes;
mod run;
mod seed;
mod status;
mod telling;
mod writers;
mod writing;

pub use complaint::{Complaint, Complaints};
pub use run::run_request;
pub use seed::seed_of;
pub use status::ExitStatus;
pub use writers::Writers;

//! What the tests of the suppression file share: results, files, and questions about a file.
#![tactic(auto)]

mod asking;
mod files;
mod results;

pub use asking::{Plain, asked_of, asked_of_none};
pub use files::{FileText, applied_of, asked_of_file, file_of};
pub use results::result_at;

//! Arguments from files: what a file of arguments gives, and what replaces the program's arguments if some of them
//! name such files.
#![tactic(auto)]

mod fault;
mod file;
mod file_fault;
mod laws;
mod limits;
mod reading;
mod replacing;
mod system;

pub use fault::ArgumentsFault;
pub use file::arguments_in;
pub use file_fault::ArgumentFileFault;
pub use laws::without_files_nothing_changes;
pub use limits::{MOST_FILE_BYTES, MOST_FILE_LINES};
pub use reading::ArgumentFiles;
pub use replacing::replace_arguments;
pub use system::system_arguments;

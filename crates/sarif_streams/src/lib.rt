//! Sources are read completely and outputs are written completely: files and standard streams, the numbers of
//! failed calls.
#![tactic(auto)]

mod counted;
mod files;
mod input;
mod kept;
mod laws;
mod output;
mod place;
mod readers;
mod readers_fault;
mod reading;
mod source;
mod streams;
mod target;
mod writing;

pub use counted::{Counted, Failed};
pub use files::InputFile;
pub use input::Input;
pub use kept::Kept;
pub use laws::sources_are_read_in_one_way;
pub use output::OutputFile;
pub use place::OutputPlace;
pub use readers::{Readers, ReadersFault, SourceBytes};
pub use readers_fault::rejection_of;
pub use reading::read_sources;
pub use source::{SourceFault, read_source};
pub use streams::STANDARD;
pub use target::{Console, Target};
pub use writing::write_out;

//! Why the program's arguments give none.
use crate::file_fault::ArgumentFileFault;
use sarif_model::Text;
use std::fmt;

/// Why the program's arguments give none.
#[derive(Debug, Drop)]
pub enum ArgumentsFault {
    /// The file of arguments of this name can't be read.
    Unread(Text),
    /// The file of this name gives no arguments.
    Invalid(Text, ArgumentFileFault),
    /// There are arguments, but none is left after the files are read.
    NoneLeft,
}

impl fmt::Display for ArgumentsFault {
    fn fmt<W: fmt::Write>(&self, f: &mut fmt::Formatter<W>) -> fmt::Result {
        match self {
            ArgumentsFault::Unread(name) => write!(f, "@{name}: ReadFailed"),
            ArgumentsFault::Invalid(name, fault) => {
                write!(f, "the file of arguments {name} {fault}")
            }
            ArgumentsFault::NoneLeft => f.write_str("the files of arguments give no argument"),
        }
    }
}

//! The system's files of arguments.
ghost use Rattle.std.specs.Prelude.{map, string_bytes};
ghost use Rattle.sarif_arguments.specs.Reading.{IfRead};
ghost use Rattle.sarif_arguments.specs.Replaced.{AreReplaced, IfDone};
ghost use Rattle.sarif_arguments.specs.System.{HasGiven};

use crate::fault::ArgumentsFault;
use crate::limits::MOST_FILE_BYTES;
use crate::reading::ArgumentFiles;
use crate::replacing::replace_arguments;
use sarif_model::Refusal;
use sarif_streams::{Counted, InputFile, SourceFault, read_source};
use std::alloc::Global;
use std::io::Read;

/// The system's files. None is standard input.
#[derive(Drop)]
struct SystemFiles<'a> {
    /// The runtime that opens them.
    rt: &'a HostRuntime,
}

impl ArgumentFiles for SystemFiles<'_> {
    ghost use Rattle.sarif_arguments.specs.System.{HasGiven};

    ghost gives = { λ files name read. HasGiven name read };

    fn read(&self, alloc: Global, name: &str) -> Result<Vec<u8>, Refusal<SourceFault>>
        ensures { IfRead (HasGiven name.now) result }
    {
        let file = InputFile::new(self.rt, name).take(MOST_FILE_BYTES as u64 + 1);
        read_source(alloc, &mut Counted::new(file))
    }
}

/// Returns what the arguments of the program are replaced by, as `replaced` does, by what the system's files give. A file of
/// arguments is read only as far as shows that it is too long.
pub fn system_arguments(
    rt: &HostRuntime,
    words: &[String],
) -> Result<Vec<String>, Refusal<ArgumentsFault>>
    ensures { IfDone (AreReplaced HasGiven (map string_bytes words.now)) result }
{
    replace_arguments(&SystemFiles { rt }, rt.alloc(), words)
}

//! Files of arguments, by name.
ghost use Rattle.std.specs.Prelude.{◌≡◌};
ghost use Rattle.sarif_arguments.specs.Replaced.{IfDone, IsFaultOrOutOfMemory, given_by};
ghost use Rattle.sarif_arguments.specs.declared.fault.ArgumentsFault.TheVariants.{Unread, Invalid};
ghost use Rattle.sarif_arguments.specs.Reading as said;

use crate::fault::ArgumentsFault;
use crate::file::arguments_in;
use crate::file_fault::ArgumentFileFault;
use sarif_model::{Refusal, Text};
use sarif_streams::SourceFault;
use std::alloc::Global;

/// Files of arguments, by name.
pub trait ArgumentFiles {
    ghost use Rattle.std.specs.Prelude.{ℕ, List};
    ghost use Rattle.sarif_arguments.specs.Reading.{IfRead, Read};

    /// What reading the file of a name may give.
    ghost gives: { Self → List ℕ → Read → Type 0 };

    /// Returns the bytes of the file of this name; of a file with more than `MOST_FILE_BYTES` bytes at least one byte
    /// more than that is enough. Returns `ReadFailed` if it can't be read, `TooLong` if it is too long to be read, and
    /// `OutOfMemory` if memory runs out.
    fn read(&self, alloc: Global, name: &str) -> Result<Vec<u8>, Refusal<SourceFault>>
        ensures { IfRead (gives self.now name.now) result };
}

/// Returns the arguments that the file of this name gives, or why it gives none.
pub(crate) fn arguments_of<F: ArgumentFiles>(
    files: &F,
    alloc: Global,
    name: &str,
) -> Result<Vec<String>, Refusal<ArgumentsFault>>
    ensures { IfDone (λ all. (read : said.Read) × F.gives files.now name.now read
        × (all ≡ given_by name.now read)) result }
{
    match files.read(alloc, name) {
        Ok(bytes) => match arguments_in(alloc, bytes.as_slice()) {
            Ok(words) => Ok(words),
            Err(Refusal::Fault(fault)) => Err(invalid_fault(alloc, name, fault)),
            Err(Refusal::OutOfMemory) => Err(Refusal::OutOfMemory),
        },
        Err(Refusal::Fault(SourceFault::ReadFailed)) => Err(unread_fault(alloc, name)),
        Err(Refusal::Fault(SourceFault::TooLong)) => Err(invalid_fault(
            alloc,
            name,
            ArgumentFileFault::TooLong,
        )),
        Err(Refusal::OutOfMemory) => Err(Refusal::OutOfMemory),
    }
}

/// Returns that the file of this name can't be read.
fn unread_fault(alloc: Global, name: &str) -> Refusal<ArgumentsFault>
    ensures { IsFaultOrOutOfMemory (Unread name.now) result }
{
    match Text::copy_of(alloc, name) {
        Ok(name) => Refusal::Fault(ArgumentsFault::Unread(name)),
        Err(_) => Refusal::OutOfMemory,
    }
}

/// Returns that the file of this name gives no arguments for this reason.
fn invalid_fault(alloc: Global, name: &str, fault: ArgumentFileFault) -> Refusal<ArgumentsFault>
    ensures { IsFaultOrOutOfMemory (Invalid name.now fault) result }
{
    match Text::copy_of(alloc, name) {
        Ok(name) => Refusal::Fault(ArgumentsFault::Invalid(name, fault)),
        Err(_) => Refusal::OutOfMemory,
    }
}

//! The errors of a suppression file.
ghost use Rattle.std.specs.Prelude.{◌≡◌};
ghost use Rattle.sarif_entries.specs.FileFault.{whole, in_entry, fault_of_file};
ghost use Rattle.sarif_model.specs.declared.refusal.Refusal.TheVariants as refusal;

use sarif_model::{At, Cause, Fault, MergeFault, Refusal, Source};
use std::fmt;

/// The first error of a suppression file.
#[derive(Clone, Copy, Debug, PartialEq, Eq)]
pub struct FileFault {
    /// The number of the entry with the error, from 0; `None` for an error of the whole file.
    pub entry: Option<u32>,
    /// What is wrong.
    pub fault: Fault,
}

impl FileFault {
    /// Returns the error of this entry.
    pub(crate) fn in_entry(number: u32, fault: Fault) -> FileFault
        ensures { result ≡ in_entry number fault }
    {
        FileFault {
            entry: Some(number),
            fault,
        }
    }
}

impl From<Fault> for FileFault {
    ghost from_gives = { λ fault found. found ≡ whole fault };

    fn from(fault: Fault) -> FileFault {
        FileFault { entry: None, fault }
    }
}

impl From<FileFault> for Refusal<FileFault> {
    ghost from_gives = { λ fault found. found ≡ refusal.Fault fault };

    fn from(fault: FileFault) -> Refusal<FileFault> {
        Refusal::Fault(fault)
    }
}

impl From<FileFault> for MergeFault {
    ghost from_gives = { λ fault found. found ≡ fault_of_file fault };

    fn from(fault: FileFault) -> MergeFault {
        let at = match fault.entry {
            Some(number) => At::Entry(number),
            None => At::Whole(Source::Suppress),
        };
        MergeFault::with_place(at, Cause::Of(fault.fault))
    }
}

impl fmt::Display for FileFault {
    fn fmt<W: fmt::Write>(&self, f: &mut fmt::Formatter<W>) -> fmt::Result {
        let fault = self.fault;
        match self.entry {
            Some(number) => write!(f, "entry {number}: {fault}"),
            None => write!(f, "{fault}"),
        }
    }
}

impl std::error::Error for FileFault {}

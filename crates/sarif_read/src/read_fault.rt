//! Why a log is rejected.
ghost use Rattle.std.specs.Prelude.{◌≡◌};
ghost use Rattle.sarif_read.specs.Internal.ReadRefusal.{whole, refusal_of_fault, refusal_of_index};

use json_parts::IndexFault;
use sarif_model::{Fault, Refusal};

/// Why `read_log` rejects a log.
#[derive(Clone, Copy, Debug, PartialEq, Eq)]
pub struct ReadFault {
    /// The run with the error, numbered from 0, if the error is in a run.
    pub run: Option<u32>,
    /// What is wrong.
    pub fault: Fault,
}

impl From<Fault> for ReadFault {
    ghost from_gives = { λ fault e. e ≡ whole fault };

    fn from(fault: Fault) -> ReadFault {
        ReadFault { run: None, fault }
    }
}

/// Returns an error that names no run.
pub(crate) fn refused_whole(refusal: Refusal<Fault>) -> Refusal<ReadFault>
    ensures { result ≡ refusal_of_fault refusal }
{
    match refusal {
        Refusal::Fault(fault) => Refusal::Fault(ReadFault::from(fault)),
        Refusal::OutOfMemory => Refusal::OutOfMemory,
    }
}

/// Returns why a log without an index is rejected: `NotJson`, without a run, or `OutOfMemory`.
pub fn refused_text(fault: IndexFault) -> Refusal<ReadFault>
    ensures { result ≡ refusal_of_index fault }
{
    match fault {
        IndexFault::NotJson => Refusal::Fault(ReadFault::from(Fault::NotJson)),
        IndexFault::OutOfMemory => Refusal::OutOfMemory,
    }
}

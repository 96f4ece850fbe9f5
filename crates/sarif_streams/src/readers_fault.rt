//! Why a merge is rejected if its sources are not all read.
ghost use Rattle.std.specs.Prelude.{◌≡◌};
ghost use Rattle.sarif_streams.specs.ReadersFault.{cause_of_source, fault_of_readers};

use crate::readers::ReadersFault;
use crate::source::SourceFault;
use sarif_model::{At, Cause, MergeFault, Refusal};
use std::alloc::AllocError;

impl From<SourceFault> for Cause {
    ghost from_gives = { λ fault cause. cause ≡ cause_of_source fault };

    fn from(fault: SourceFault) -> Cause {
        match fault {
            SourceFault::ReadFailed => Cause::ReadFailed,
            SourceFault::TooLong => Cause::TooLong,
        }
    }
}

/// Returns the rejection of a merge whose sources were not all read: `ReadFailed` or `TooLong` at the source, or
/// `OutOfMemory` without a place.
pub fn rejection_of(refusal: Refusal<ReadersFault>) -> MergeFault
    ensures { result ≡ fault_of_readers refusal }
{
    match refusal {
        Refusal::Fault(found) => MergeFault {
            at: At::Whole(found.source),
            cause: Cause::from(found.fault),
        },
        Refusal::OutOfMemory => MergeFault::from(AllocError),
    }
}

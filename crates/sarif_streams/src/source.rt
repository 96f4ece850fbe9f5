//! Reading a source whole.
ghost use Rattle.std.specs.Prelude.{◌≡◌, ◌<◌, ◌^◌, IfOk, OnOk, IfSome, Err, length, vec_len};
ghost use Rattle.std.specs.Io.KnownBytes.{Consumes, IsAtEnd};
ghost use Rattle.sarif_streams.specs.Counted.{inner_of, failed_calls, RisesIf};
ghost use Rattle.sarif_streams.specs.Source.{IsWithinLimit, IsPastLimit, read_has_failed};

use crate::counted::Counted;
use sarif_model::{MOST_BYTES, Refusal};
use std::alloc::{AllocError, Global};
use std::io::Read;
use thiserror::Error;

/// How many bytes one read requests.
const BUFFER: usize = 65_536;

/// Why a source was not read.
#[derive(Clone, Copy, Debug, PartialEq, Eq, Error)]
pub enum SourceFault {
    /// A read failed.
    #[error("ReadFailed")]
    ReadFailed = 1,
    /// There are more than `MOST_BYTES` bytes.
    #[error("TooLong")]
    TooLong = 2,
}

/// All bytes up to the read that returns none, at most `MOST_BYTES`. Returns `ReadFailed` at the first read that
/// fails, for any reason; `TooLong` after one byte past the limit, even if the reader has no end; `OutOfMemory` if
/// memory runs out. Bytes that were read stay read.
pub fn read_source<R: Read>(
    alloc: Global,
    source: &mut Counted<R>,
) -> Result<Vec<u8>, Refusal<SourceFault>>
    requires { failed_calls source.old < 2 ^ 63 }
    ensures bytes { IfOk result (λ v. Consumes (R.remaining (inner_of source.old))
        (R.remaining (inner_of source.new)) v.items) }
    ensures end { OnOk result (IsAtEnd (R.remaining (inner_of source.new))) }
    ensures within { IfOk result (λ v. IsWithinLimit v.items) }
    ensures too_long { result ≡ Err (Refusal.Fault SourceFault.TooLong)
        → IfSome (R.remaining (inner_of source.old)) IsPastLimit }
    ensures counted { RisesIf (read_has_failed result)
        (failed_calls source.old) (failed_calls source.new) }
{
    let mut buffer = zeros(alloc, BUFFER)?;
    read_through(alloc, source, buffer.as_mut_slice())
}

/// Reads through the buffer.
fn read_through<R: Read>(
    alloc: Global,
    source: &mut Counted<R>,
    buffer: &mut [u8],
) -> Result<Vec<u8>, Refusal<SourceFault>>
    requires faults { failed_calls source.old < 2 ^ 63 }
    requires room { 0 < length buffer.old }
    ensures bytes { IfOk result (λ v. Consumes (R.remaining (inner_of source.old))
        (R.remaining (inner_of source.new)) v.items) }
    ensures end { OnOk result (IsAtEnd (R.remaining (inner_of source.new))) }
    ensures within { IfOk result (λ v. IsWithinLimit v.items) }
    ensures too_long { result ≡ Err (Refusal.Fault SourceFault.TooLong)
        → IfSome (R.remaining (inner_of source.old)) IsPastLimit }
    ensures counted { RisesIf (read_has_failed result)
        (failed_calls source.old) (failed_calls source.new) }
{
    let mut bytes = Vec::new(alloc);
    loop {
        let room = (MOST_BYTES + 1 - bytes.len()).min(buffer.len());
        let taken = match source.read(&mut buffer[..room]) {
            Ok(taken) => taken,
            Err(_) => return Err(Refusal::Fault(SourceFault::ReadFailed)),
        };
        if taken == 0 {
            return Ok(bytes);
        }
        if taken > MOST_BYTES - bytes.len() {
            return Err(Refusal::Fault(SourceFault::TooLong));
        }
        bytes.extend_from_slice(&buffer[..taken])?;
    }
}

fn zeros(alloc: Global, size: usize) -> Result<Vec<u8>, AllocError>
    ensures { IfOk result (λ v. vec_len v ≡ size) }
{
    let buffer = vec![in alloc; 0u8; size]?;
    Ok(buffer)
}

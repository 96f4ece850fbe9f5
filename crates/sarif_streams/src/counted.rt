//! A reader or a writer that knows how many of its calls failed.
ghost use Rattle.std.specs.Prelude.{◌≡◌, ◌+◌, ◌<◌, ◌^◌, length, IfOk};
ghost use Rattle.std.specs.Io.{ReadsAtMost, WritesAtMost};
ghost use Rattle.std.specs.Io.KnownBytes.{ReadConsumes, WriteAppends};
ghost use Rattle.sarif_streams.specs.Counted.{inner_of, failed_calls, has_failed, RisesIf};

use std::io::{Read, Write};
use thiserror::Error;

/// A call of a `Counted` failed: the inner call failed, or a write took none of at least one byte.
#[derive(Clone, Copy, Debug, PartialEq, Eq, Error)]
#[error("Failed")]
pub struct Failed;

/// A reader or a writer, together with the number of its failed calls.
#[derive(Debug, Drop)]
pub struct Counted<D> {
    inner: D,
    faults: u64,
}

impl<D> Counted<D> {
    /// A reader or a writer none of whose calls failed yet.
    pub fn new(inner: D) -> Counted<D>
        ensures inner { inner_of result ≡ inner }
        ensures none { failed_calls result ≡ 0 }
    {
        Counted { inner, faults: 0 }
    }

    /// The reader or the writer whose calls are counted.
    pub fn inner(&self) -> &D
        ensures { result.now ≡ inner_of self.now }
    {
        &self.inner
    }

    /// How many of its calls failed.
    pub fn faults(&self) -> u64
        ensures { result ≡ failed_calls self.now }
    {
        self.faults
    }

    /// Counts a call that failed.
    fn fail(&mut self) -> Failed
        requires { failed_calls self.old < 2 ^ 63 }
        ensures one { failed_calls self.new ≡ failed_calls self.old + 1 }
        ensures inner { inner_of self.new ≡ inner_of self.old }
    {
        self.faults += 1;
        Failed
    }
}

impl<R: Read> Counted<R> {
    /// Forwards what the reader returns. Returns and counts `Failed` if and only if its call failed.
    pub fn read(&mut self, buf: &mut [u8]) -> Result<usize, Failed>
        requires { failed_calls self.old < 2 ^ 63 }
        ensures bound { ReadsAtMost result buf.new }
        ensures bytes { ReadConsumes (R.remaining (inner_of self.old))
            (R.remaining (inner_of self.new)) result buf.new }
        ensures counted { RisesIf (has_failed result)
            (failed_calls self.old) (failed_calls self.new) }
    {
        match self.inner.read(buf) {
            Ok(n) => Ok(n),
            Err(_) => Err(self.fail()),
        }
    }
}

impl<W: Write> Counted<W> {
    /// Forwards what the writer accepts. Returns and counts `Failed` if and only if its call failed, or accepted
    /// none of at least one byte.
    pub fn write(&mut self, buf: &[u8]) -> Result<usize, Failed>
        requires { failed_calls self.old < 2 ^ 63 }
        ensures bound { WritesAtMost result buf.now }
        ensures some { IfOk result (λ n. 0 < length buf.now → 0 < n) }
        ensures bytes { WriteAppends (W.contents (inner_of self.old))
            (W.contents (inner_of self.new)) result buf.now }
        ensures counted { RisesIf (has_failed result)
            (failed_calls self.old) (failed_calls self.new) }
    {
        match self.inner.write(buf) {
            Ok(n) if n > 0 || buf.is_empty() => Ok(n),
            _ => Err(self.fail()),
        }
    }
}

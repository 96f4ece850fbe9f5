//! The bytes and the last error of a source or an output, kept for an explanation.
ghost use Rattle.std.specs.Prelude.{◌≡◌, Some, None, IfOk, IfErr, OnOk, OnErr, option_map, take};
ghost use Rattle.std.specs.Io.{ReadsAtMost, WritesAtMost};
ghost use Rattle.std.specs.Io.KnownBytes.{Keeps, ReadConsumes, WriteAppends};
ghost use Rattle.sarif_streams.specs.Internal.Kept.{KeepsMore, kept_bytes, kept_in};

use std::io::{self, Read, Write};

/// A reader or a writer, together with the message of its last failed call and, if requested, the bytes that were
/// read.
#[derive(Drop)]
pub struct Kept<D> {
    inner: D,
    bytes: Option<Vec<u8>>,
    error: Option<io::Error>,
}

impl<D> Kept<D> {
    /// Keeps the bytes that are read in `bytes`, if it is there; otherwise only the last error.
    pub fn new(inner: D, bytes: Option<Vec<u8>>) -> Kept<D>
        ensures inner { kept_in result ≡ inner }
        ensures bytes { kept_bytes result ≡ option_map (λ v. v.items) bytes }
        ensures error { result.error ≡ None }
    {
        Kept {
            inner,
            bytes,
            error: None,
        }
    }

    /// What was read and kept. Returns `None` if this was not requested, or if memory for it ran out.
    pub fn bytes(&self) -> Option<&[u8]>
        ensures { option_map (λ bytes. bytes.now) result ≡ kept_bytes self.now }
    {
        match &self.bytes {
            Some(bytes) => Some(bytes.as_slice()),
            None => None,
        }
    }

    /// What the last failed call said.
    pub fn error(&self) -> Option<io::Error>
        ensures { result ≡ self.now.error }
    {
        self.error
    }

    /// Keeps bytes, if requested. If memory runs out, nothing is kept any more.
    fn keep(&mut self, bytes: &[u8])
        ensures inner { kept_in self.new ≡ kept_in self.old }
        ensures more { KeepsMore (kept_bytes self.old) (kept_bytes self.new) bytes.now }
        ensures error { self.new.error ≡ self.old.error }
    {
        let is_full = match &mut self.bytes {
            Some(kept) => kept.extend_from_slice(bytes).is_err(),
            None => false,
        };
        if is_full {
            self.bytes = None;
        }
    }
}

impl<D: Read> Read for Kept<D> {
    ghost use Rattle.sarif_streams.specs.Internal.Kept.{kept_in};

    ghost remaining = { λ k. D.remaining (kept_in k) };

    fn read(&mut self, buf: &mut [u8]) -> io::Result<usize>
        ensures bound { ReadsAtMost result buf.new }
        ensures bytes { ReadConsumes (D.remaining (kept_in self.old))
            (D.remaining (kept_in self.new)) result buf.new }
        // What was read is kept after what was kept before, if there is memory.
        ensures kept { IfOk result
            (λ n. KeepsMore (kept_bytes self.old) (kept_bytes self.new) (take n buf.new)) }
        ensures same { OnErr result (self.new.bytes ≡ self.old.bytes) }
        // The last error is kept.
        ensures failed { IfErr result (λ error. self.new.error ≡ Some error) }
        ensures quiet { OnOk result (self.new.error ≡ self.old.error) }
    {
        match self.inner.read(buf) {
            Ok(taken) => {
                self.keep(&buf[..taken]);
                Ok(taken)
            }
            Err(error) => {
                self.error = Some(error);
                Err(error)
            }
        }
    }
}

impl<D: Write> Write for Kept<D> {
    ghost use Rattle.sarif_streams.specs.Internal.Kept.{kept_in};

    ghost contents = { λ k. D.contents (kept_in k) };

    fn write(&mut self, buf: &[u8]) -> io::Result<usize>
        ensures bound { WritesAtMost result buf.now }
        ensures bytes { WriteAppends (D.contents (kept_in self.old))
            (D.contents (kept_in self.new)) result buf.now }
        ensures same { self.new.bytes ≡ self.old.bytes }
        // The last error is kept.
        ensures failed { IfErr result (λ error. self.new.error ≡ Some error) }
        ensures quiet { OnOk result (self.new.error ≡ self.old.error) }
    {
        match self.inner.write(buf) {
            Ok(taken) => Ok(taken),
            Err(error) => {
                self.error = Some(error);
                Err(error)
            }
        }
    }

    fn flush(&mut self) -> io::Result<()>
        ensures bytes { Keeps (D.contents (kept_in self.old)) (D.contents (kept_in self.new)) }
        ensures same { self.new.bytes ≡ self.old.bytes }
        ensures error { self.new.error ≡ self.old.error }
    {
        self.inner.flush()
    }
}

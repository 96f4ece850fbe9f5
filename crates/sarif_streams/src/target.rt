//! Where an output goes: a file, or a standard stream.
ghost use Rattle.std.specs.Prelude.{◌≡◌, ◌<◌, None, IfOk, IsErr, IsOk, IsSome, OnErr, length};
ghost use Rattle.std.specs.Io.{WritesAtMost};
ghost use Rattle.std.specs.Io.KnownBytes.{Keeps, WriteAppends};
ghost use Rattle.sarif_streams.specs.Named.{channel_named, target_channel};
ghost use Rattle.sarif_streams.specs.Internal.Taken.{OfOutputs, TargetTakesAs, console_held};
ghost use Rattle.sarif_streams.specs.Internal.Writing.{file_of};
ghost use Rattle.sarif_streams.specs.declared.output.Writing.TheVariants.{Unopened, Over};

use crate::output::OutputFile;
use crate::place::OutputPlace;
use crate::streams::STANDARD;
use std::alloc::{AllocError, Global};
use std::io::{self, Write};
use std::rt::Files;

/// A file that is complete or untouched, or standard output.
#[derive(Drop)]
pub enum Target<'a, R: Files, O> {
    /// A file, which is complete or untouched.
    File(OutputFile<'a, R, R::File>),
    /// Standard output, which is written immediately.
    Standard(O),
}

impl<'a, R: Files, O: Drop> Target<'a, R, O> {
    /// The output with a name: `-` is standard output. Nothing is opened yet. The name of the new file contains
    /// `number`. Returns `AllocError` if memory for the names runs out.
    pub fn of(
        files: &'a R,
        standard: O,
        alloc: Global,
        name: &'a str,
        number: u64,
    ) -> Result<Target<'a, R, O>, AllocError>
        ensures { IfOk result (λ target. target_channel target ≡ channel_named name.now) }
    {
        if name == STANDARD {
            return Ok(Target::Standard(standard));
        }
        let place = OutputPlace::of(files, alloc, name, number)?;
        Ok(Target::File(OutputFile::new(files, place)))
    }
}

impl<R: Files, O: Write> Write for Target<'_, R, O> {
    fn write(&mut self, buf: &[u8]) -> io::Result<usize>
        ensures bound { WritesAtMost result buf.now }
        ensures bytes { WriteAppends None None result buf.now }
        // What it takes is what the file or the stream took.
        ensures handed { TargetTakesAs R.File.contents O.contents self.old self.new
            result buf.now }
        // The rest are the clauses of `OutputFile::write`.
        ensures place { OfOutputs (λ old new. new.place ≡ old.place) self.old self.new }
        ensures some { IfOk result (λ n. 0 < length buf.now → OfOutputs
            (λ old new. 0 < n) self.old self.new) }
        ensures open { IfOk result (λ n. 0 < n → OfOutputs
            (λ old new. IsSome (file_of new.writing)) self.old self.new) }
        ensures failed { OnErr result (OfOutputs
            (λ old new. new.writing ≡ Over) self.old self.new) }
        ensures spent { OfOutputs (λ old new. old.writing ≡ Over → IsErr result)
            self.old self.new }
        ensures ended { length buf.now ≡ 0 → OfOutputs
            (λ old new. new.writing ≡ Over) self.old self.new }
    {
        match self {
            Target::File(file) => file.write(buf),
            Target::Standard(standard) => standard.write(buf),
        }
    }

    fn flush(&mut self) -> io::Result<()>
        ensures bytes { Keeps None None }
        // The rest are the clauses of `OutputFile::flush`.
        ensures place { OfOutputs (λ old new. new.place ≡ old.place) self.old self.new }
        ensures unopened { OfOutputs (λ old new. old.writing ≡ Unopened
            → IsOk result × (new.writing ≡ Unopened)) self.old self.new }
    {
        match self {
            Target::File(file) => file.flush(),
            Target::Standard(standard) => standard.flush(),
        }
    }
}

/// Standard output, or standard error where the merged log goes to standard output.
#[derive(Drop)]
pub enum Console<O, E> {
    /// Standard output.
    Output(O),
    /// Standard error.
    Error(E),
}

impl<O: Write, E: Write> Write for Console<O, E> {
    ghost use Rattle.sarif_streams.specs.Internal.Taken.{console_held};

    ghost contents = { console_held O.contents E.contents };

    fn write(&mut self, buf: &[u8]) -> io::Result<usize>
        ensures bound { WritesAtMost result buf.now }
        ensures bytes { WriteAppends (console_held O.contents E.contents self.old)
            (console_held O.contents E.contents self.new) result buf.now }
    {
        match self {
            Console::Output(output) => output.write(buf),
            Console::Error(error) => error.write(buf),
        }
    }

    fn flush(&mut self) -> io::Result<()>
        ensures bytes { Keeps (console_held O.contents E.contents self.old)
            (console_held O.contents E.contents self.new) }
    {
        match self {
            Console::Output(output) => output.flush(),
            Console::Error(error) => error.flush(),
        }
    }
}

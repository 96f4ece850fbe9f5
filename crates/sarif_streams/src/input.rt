//! Where a source is read from.
ghost use Rattle.std.specs.Prelude.{◌≡◌, ◌<◌, None, Ok, IfOk, OnErr, length};
ghost use Rattle.std.specs.Io.{ReadsAtMost};
ghost use Rattle.std.specs.Io.KnownBytes.{IsAtEnd, ReadConsumes};
ghost use Rattle.sarif_streams.specs.Internal.Given.{InputGivesAs, OfInputs};
ghost use Rattle.sarif_streams.specs.Named.{channel_named, input_channel};
ghost use Rattle.sarif_streams.specs.declared.files.Stage.TheVariants.{Open, Ended};

use crate::files::InputFile;
use crate::streams::STANDARD;
use std::io::{self, Read};
use std::rt::Files;

/// A file, or standard input.
#[derive(Drop)]
pub enum Input<'a, R: Files, I> {
    /// A file, opened at its first read.
    File(InputFile<'a, R>),
    /// Standard input.
    Standard(I),
}

impl<'a, R: Files, I: Drop> Input<'a, R, I> {
    /// The log of a name: `-` is standard input. Nothing is opened yet.
    pub fn log(files: &'a R, standard: I, name: &'a str) -> Input<'a, R, I>
        ensures { input_channel result ≡ channel_named name.now }
    {
        if name == STANDARD {
            Input::Standard(standard)
        } else {
            Input::File(InputFile::new(files, name))
        }
    }
}

impl<R: Files, I: Read> Read for Input<'_, R, I> {
    fn read(&mut self, buf: &mut [u8]) -> io::Result<usize>
        ensures bound { ReadsAtMost result buf.new }
        ensures bytes { ReadConsumes None None result buf.new }
        // What it gives is what the file or the stream gave.
        ensures given { InputGivesAs R.File.remaining I.remaining self.old self.new
            result buf.new }
        // The rest are the clauses of `InputFile::read`.
        ensures name { OfInputs (λ old new. new.name.now ≡ old.name.now) self.old self.new }
        ensures open { IfOk result (λ n. 0 < n → OfInputs
            (λ old new. (file : _) × (new.stage ≡ Open file)) self.old self.new) }
        ensures closed { IfOk result (λ n. n ≡ 0 → OfInputs
            (λ old new. new.stage ≡ Ended) self.old self.new) }
        ensures failed { OnErr result (OfInputs
            (λ old new. new.stage ≡ Ended → ⊥) self.old self.new) }
        ensures ended { OfInputs (λ old new. old.stage ≡ Ended → result ≡ Ok 0)
            self.old self.new }
        ensures whole { OfInputs (λ old new. (file : _) → old.stage ≡ Open file → IfOk result
            (λ n. n ≡ 0 → 0 < length buf.old → IsAtEnd (R.File.remaining file)))
            self.old self.new }
    {
        match self {
            Input::File(file) => file.read(buf),
            Input::Standard(standard) => standard.read(buf),
        }
    }
}

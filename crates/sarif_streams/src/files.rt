//! Inputs by name, opened when they are first read.
ghost use Rattle.std.specs.Prelude.{◌≡◌, ◌<◌, None, Ok, IfOk, OnErr, length};
ghost use Rattle.std.specs.Io.{ReadsAtMost};
ghost use Rattle.std.specs.Io.KnownBytes.{IsAtEnd, ReadConsumes};
ghost use Rattle.sarif_streams.specs.Internal.Given.{GivesAs};
ghost use Rattle.sarif_streams.specs.declared.files.Stage.TheVariants.{Unopened, Open, Ended};

use std::fs;
use std::io::{self, Read};
use std::rt::Files;

/// The state of an input file.
#[derive(Drop)]
enum Stage<F> {
    Unopened,
    Open(F),
    Ended,
}

/// A file that is opened at its first read, and closed at the read that gives 0 bytes. Where it can't be
/// opened that read fails.
#[derive(Drop)]
pub struct InputFile<'a, R: Files> {
    files: &'a R,
    name: &'a str,
    stage: Stage<R::File>,
}

impl<'a, R: Files> InputFile<'a, R> {
    /// The file of this name. Nothing is opened yet.
    pub fn new(files: &'a R, name: &'a str) -> InputFile<'a, R>
        ensures name { result.name.now ≡ name.now }
        ensures unopened { result.stage ≡ Unopened }
    {
        InputFile {
            files,
            name,
            stage: Stage::Unopened,
        }
    }
}

impl<R: Files> Read for InputFile<'_, R> {
    fn read(&mut self, buf: &mut [u8]) -> io::Result<usize>
        ensures bound { ReadsAtMost result buf.new }
        ensures bytes { ReadConsumes None None result buf.new }
        ensures name { self.new.name.now ≡ self.old.name.now }
        // What it gives is what the file gave.
        ensures given { GivesAs R.File.remaining self.old.stage self.new.stage result buf.new }
        // Bytes come from an open file alone.
        ensures open { IfOk result (λ n. 0 < n → (file : _) × (self.new.stage ≡ Open file)) }
        // Only a read that gives none ends it, and it stays ended.
        ensures closed { IfOk result (λ n. n ≡ 0 → self.new.stage ≡ Ended) }
        ensures failed { OnErr result (self.new.stage ≡ Ended → ⊥) }
        ensures ended { self.old.stage ≡ Ended → result ≡ Ok 0 }
        // A read that failed isn't taken for the end.
        ensures whole { (file : _) → self.old.stage ≡ Open file → IfOk result
            (λ n. n ≡ 0 → 0 < length buf.old → IsAtEnd (R.File.remaining file)) }
    {
        if matches!(self.stage, Stage::Unopened) {
            self.stage = Stage::Open(fs::open(self.files, self.name)?);
        }
        let taken = match &mut self.stage {
            Stage::Open(file) => file.read(buf)?,
            _ => 0,
        };
        if taken == 0 {
            self.stage = Stage::Ended;
        }
        Ok(taken)
    }
}

//! An output that is complete or untouched.
ghost use Rattle.std.specs.Prelude.{◌≡◌, ◌<◌, None, IfOk, IsErr, IsOk, IsSome, OnErr, OnOk, length};
ghost use Rattle.std.specs.Io.{WritesAtMost};
ghost use Rattle.std.specs.Io.KnownBytes.{Keeps, WriteAppends};
ghost use Rattle.sarif_streams.specs.Internal.Taken.{TakesAs};
ghost use Rattle.sarif_streams.specs.Internal.Writing.{file_of};
ghost use Rattle.sarif_streams.specs.declared.output.Writing.TheVariants.{Unopened, Over};

use crate::place::{Destination, OutputPlace};
use std::fs::{self, OpenFile, OpenOptions, Permissions};
use std::io::{self, ErrorKind, Write};
use std::os::unix::fs::{OpenOptionsExt, PermissionsExt};
use std::path::Path;
use std::rt::Files;

/// The bits of a mode that say who may read, write and run a file.
const ACCESS: u32 = 0o777;

/// How far an output is.
#[derive(Drop)]
enum Writing<F> {
    /// Nothing was written.
    Unopened,
    /// A device, a pipe or a socket, written as it is.
    AsIs(F),
    /// A new file, in the same folder as the name that it is to get.
    Beside(F),
    /// Committed, or given up.
    Over,
}

/// An output on its way into a file. Its first bytes create a new file in the same folder. When all bytes are
/// accepted, a write of no bytes commits it: the new file is renamed. Until then, and if anything fails, the
/// existing file stays, and no new file remains.
#[derive(Drop)]
pub struct OutputFile<'a, R, F> {
    files: &'a R,
    place: OutputPlace<'a>,
    writing: Writing<F>,
}

impl<'a, R, F> OutputFile<'a, R, F> {
    /// An output to this place. Nothing is opened yet: this type does not know how to open an `R`.
    pub fn new(files: &'a R, place: OutputPlace<'a>) -> OutputFile<'a, R, F>
        ensures place { result.place ≡ place.entry }
        ensures unopened { result.writing ≡ Unopened }
    {
        OutputFile {
            files,
            place,
            writing: Writing::Unopened,
        }
    }
}

impl<R: Files> OutputFile<'_, R, R::File> {
    /// Renames a completely written file; an empty output creates an empty file. Fails if the new file cannot be
    /// created, synced or renamed, or if an earlier write failed; the existing file then stays.
    pub fn commit(&mut self) -> io::Result<()>
        ensures place { self.new.place ≡ self.old.place }
        ensures over { self.new.writing ≡ Over }
        // What was given up is never committed, nor anything twice.
        ensures once { self.old.writing ≡ Over → IsErr result }
    {
        let taken = match self.leave() {
            Writing::Unopened => start(self.files, &self.place)?,
            Writing::Over => return Err(ErrorKind::Other.into()),
            taken => taken,
        };
        match taken {
            Writing::Beside(file) => finish(self.files, &self.place, &file),
            _ => Ok(()),
        }
    }

    /// How far the output was; it is over.
    fn leave(&mut self) -> Writing<R::File>
        ensures place { self.new.place ≡ self.old.place }
        ensures was { result ≡ self.old.writing }
        ensures over { self.new.writing ≡ Over }
    {
        std::mem::replace(&mut self.writing, Writing::Over)
    }

    /// Gives the output up: no new file remains.
    fn give_up(&mut self)
        ensures place { self.new.place ≡ self.old.place }
        ensures over { self.new.writing ≡ Over }
    {
        if let Writing::Beside(_) = self.leave() {
            remove_new(self.files, &self.place);
        }
    }

    /// Passes bytes to the open file.
    fn take(&mut self, buf: &[u8]) -> io::Result<usize>
        ensures bound { WritesAtMost result buf.now }
        ensures place { self.new.place ≡ self.old.place }
        ensures open { OnOk result (IsSome (file_of self.new.writing)) }
        ensures over { self.old.writing ≡ Over → self.new.writing ≡ Over }
        ensures spent { self.old.writing ≡ Over → IsErr result }
        ensures handed { TakesAs R.File.contents (file_of self.old.writing)
            (file_of self.new.writing) result buf.now }
    {
        if matches!(self.writing, Writing::Unopened) {
            self.writing = start(self.files, &self.place)?;
        }
        match &mut self.writing {
            Writing::AsIs(file) => file.write(buf),
            Writing::Beside(file) => file.write(buf),
            _ => Err(ErrorKind::Other.into()),
        }
    }
}

impl<R: Files> Write for OutputFile<'_, R, R::File> {
    fn write(&mut self, buf: &[u8]) -> io::Result<usize>
        ensures bound { WritesAtMost result buf.now }
        ensures bytes { WriteAppends None None result buf.now }
        ensures place { self.new.place ≡ self.old.place }
        // If there are bytes, it accepts at least one or fails.
        ensures some { IfOk result (λ n. 0 < length buf.now → 0 < n) }
        // Only an open file accepts bytes.
        ensures open { IfOk result (λ n. 0 < n → IsSome (file_of self.new.writing)) }
        // Forwards what the file accepted.
        ensures handed { TakesAs R.File.contents (file_of self.old.writing)
            (file_of self.new.writing) result buf.now }
        // If a write fails, the output is given up and accepts no more bytes.
        ensures failed { OnErr result (self.new.writing ≡ Over) }
        ensures spent { self.old.writing ≡ Over → IsErr result }
        // No bytes commit.
        ensures ended { length buf.now ≡ 0 → self.new.writing ≡ Over }
    {
        if buf.is_empty() {
            self.commit()?;
            return Ok(0);
        }
        match self.take(buf) {
            Ok(taken) if taken > 0 => Ok(taken),
            Ok(_) => {
                self.give_up();
                Err(ErrorKind::WriteZero.into())
            }
            Err(error) => {
                self.give_up();
                Err(error)
            }
        }
    }

    fn flush(&mut self) -> io::Result<()>
        ensures bytes { Keeps None None }
        ensures place { self.new.place ≡ self.old.place }
        // If nothing was written, nothing is opened, and the call succeeds.
        ensures unopened { self.old.writing ≡ Unopened
            → IsOk result × (self.new.writing ≡ Unopened) }
    {
        match &mut self.writing {
            Writing::AsIs(file) => file.flush(),
            Writing::Beside(file) => file.flush(),
            _ => Ok(()),
        }
    }
}

/// Opens what is to take the text.
fn start<R: Files>(files: &R, place: &OutputPlace<'_>) -> io::Result<Writing<R::File>>
    ensures open { IfOk result (λ writing. IsSome (file_of writing)) }
{
    match &place.found {
        Destination::System(name) => as_is(files, name.as_path()),
        Destination::Named { whole, new } => match fs::metadata(files, whole.as_path()) {
            Ok(old) if !old.is_file() => as_is(files, whole.as_path()),
            Ok(old) => {
                let _writable = OpenOptions::new().write(true).open(files, whole.as_path())?;
                let mode = old.permissions().mode() & ACCESS;
                Ok(Writing::Beside(new_file_like(files, new.as_path(), mode)?))
            }
            Err(error) if error.kind() == ErrorKind::NotFound => {
                let mut how = OpenOptions::new();
                how.write(true).create_new(true);
                Ok(Writing::Beside(how.open(files, new.as_path())?))
            }
            Err(error) => Err(error),
        },
        Destination::Lost(kind) => Err((*kind).into()),
    }
}

/// Opens a file of the system's own.
fn as_is<R: Files>(files: &R, name: Path<'_>) -> io::Result<Writing<R::File>>
    ensures open { IfOk result (λ writing. IsSome (file_of writing)) }
{
    let file = fs::create(files, name)?;
    Ok(Writing::AsIs(file))
}

/// Makes a new file with the mode of an old one, before any of the text is in it.
fn new_file_like<R: Files>(files: &R, name: Path<'_>, mode: u32) -> io::Result<R::File> {
    let mut how = OpenOptions::new();
    how.write(true).create_new(true).mode(mode);
    let file = how.open(files, name)?;
    match file.set_permissions(Permissions::from_mode(mode)) {
        Ok(()) => Ok(file),
        Err(error) => {
            let _ = fs::remove_file(files, name);
            Err(error)
        }
    }
}

/// Syncs a new file and gives it its name, or removes it.
fn finish<R: Files>(files: &R, place: &OutputPlace<'_>, file: &R::File) -> io::Result<()> {
    match sync_and_rename(files, place, file) {
        Ok(()) => Ok(()),
        Err(error) => {
            remove_new(files, place);
            Err(error)
        }
    }
}

/// Syncs a new file and gives it its name.
fn sync_and_rename<R: Files>(files: &R, place: &OutputPlace<'_>, file: &R::File) -> io::Result<()> {
    file.sync_all()?;
    match &place.found {
        Destination::Named { whole, new } => fs::rename(files, new.as_path(), whole.as_path()),
        _ => Ok(()),
    }
}

/// Removes a new file. If that fails too, nothing more can be done.
fn remove_new<R: Files>(files: &R, place: &OutputPlace<'_>) {
    if let Destination::Named { new, .. } = &place.found {
        let _ = fs::remove_file(files, new.as_path());
    }
}

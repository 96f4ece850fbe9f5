//! The name of an output, and the name under which it is written until it is complete.
ghost use Rattle.std.specs.Prelude.{◌≡◌, IfOk};

use std::alloc::{AllocError, Global};
use std::fs;
use std::io::{self, ErrorKind};
use std::path::{Path, PathBuf};
use std::rt::Files;

/// As many links are followed as the system follows.
const LINKS: usize = 40;

/// What the links of a name lead to.
#[derive(Drop)]
pub(crate) enum Destination {
    /// A name of the system's own, which is written as it is.
    System(PathBuf),
    /// A name that is not a link, and the name of a new file in the same folder.
    Named { whole: PathBuf, new: PathBuf },
    /// The links can't be followed to their end.
    Lost(ErrorKind),
}

/// Where an output goes: the name that was requested, and what its links lead to.
#[derive(Drop)]
pub struct OutputPlace<'a> {
    name: &'a str,
    pub(crate) found: Destination,
}

impl<'a> OutputPlace<'a> {
    /// Follows the links of `name`. The new file's name contains `number` and is in the folder of the link's
    /// target. This call only reads links; it opens and changes nothing. Returns `AllocError` if memory for the
    /// names runs out. If links cannot be followed to their end, no write to the place succeeds.
    pub fn of<R: Files>(
        files: &R,
        alloc: Global,
        name: &'a str,
        number: u64,
    ) -> Result<OutputPlace<'a>, AllocError>
        ensures { IfOk result (λ place. place.name.now ≡ name.now) }
    {
        let found = Destination::of(files, alloc, name, number)?;
        Ok(OutputPlace { name, found })
    }
}

impl Destination {
    /// Follows the links of `name`.
    fn of<R: Files>(
        files: &R,
        alloc: Global,
        name: &str,
        number: u64,
    ) -> Result<Destination, AllocError> {
        let mut whole = PathBuf::from_str(alloc, name)?;
        for _ in 0..LINKS {
            if is_of_system(whole.as_path()) {
                return Ok(Destination::System(whole));
            }
            match link_at(files, alloc, whole.as_path()) {
                Ok(Some(target)) => whole.set_file_name(target.as_path().as_str())?,
                Ok(None) => return Destination::beside(alloc, whole, number),
                Err(error) if error.kind() == ErrorKind::OutOfMemory => return Err(AllocError),
                Err(error) => return Ok(Destination::Lost(error.kind())),
            }
        }
        Ok(Destination::Lost(ErrorKind::FilesystemLoop))
    }

    /// A name that is not a link, with a name in the same folder.
    fn beside(alloc: Global, whole: PathBuf, number: u64) -> Result<Destination, AllocError> {
        let name = format!(in alloc; ".sarif_gate-{number:016x}")?;
        let new = whole.as_path().with_file_name(alloc, name.as_str())?;
        Ok(Destination::Named { whole, new })
    }
}

/// Whether a name is below a folder whose files are the system's devices and processes.
fn is_of_system(path: Path<'_>) -> bool {
    path.starts_with("/dev") || path.starts_with("/proc")
}

/// The target of a link; `None` if there is no link. Returns an error if that cannot be determined.
fn link_at<R: Files>(files: &R, alloc: Global, path: Path<'_>) -> io::Result<Option<PathBuf>> {
    match fs::symlink_metadata(files, path) {
        Ok(found) if found.is_symlink() => {
            let target = files.read_link(alloc, path.as_str())?;
            Ok(Some(target))
        }
        Ok(_) => Ok(None),
        Err(error) if error.kind() == ErrorKind::NotFound => Ok(None),
        Err(error) => Err(error),
    }
}

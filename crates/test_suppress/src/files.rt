//! Suppression files as they are written in tests, and what they make of a result.
ghost use Rattle.std.specs.Prelude.{◌≡◌, ℕ, List, IfOk, None, Ok};
ghost use Rattle.sarif_entries.specs.File.{File};
ghost use Rattle.sarif_entries.specs.File as said;
ghost use Rattle.sarif_suppress.specs.Suppressing.{is_suppressed, matching_numbers};
ghost use Rattle.test_suppress.specs.Asked.{IsAnswerFor};

use crate::asking::{Plain, asked_of};
use sarif_entries::FileFault;
use sarif_model::{Record, Refusal};
use sarif_suppress::Applied;
use std::alloc::{AllocError, Global};

/// A suppression file as it is written, and the date for which it is read.
#[derive(Clone, Copy)]
pub struct FileText<'a> {
    /// The version.
    pub version: u32,
    /// The entries, which are JSON objects with commas between them.
    pub entries: &'a str,
    /// The date as YYYYMMDD, if one is known.
    pub today: Option<u32>,
}

/// Returns a file of this version with these entries, for no date.
pub fn file_of(version: u32, entries: &str) -> FileText<'_>
    ensures version { result.version ≡ version }
    ensures entries { result.entries.now ≡ entries.now }
    ensures today { result.today ≡ None }
{
    FileText {
        version,
        entries,
        today: None,
    }
}

/// Returns what `ask` returns for the file. Returns an error if the file has one, or `OutOfMemory` if memory runs out.
pub fn asked_of_file<A, Ask: FnOnce(&Plain) -> Result<A, AllocError>>(
    alloc: Global,
    file: FileText,
    ask: Ask,
) -> Result<A, Refusal<FileFault>>
    requires { Ask.IsAlwaysCallable ask }
    ensures { IfOk result (λ answer. IsAnswerFor Ask.FnOnce ask file.entry.today (Ok answer)) }
{
    let (version, entries) = (file.version, file.entries);
    let text = format!(in alloc; "{{\"version\":{version},\"suppressions\":[{entries}]}}")?;
    let answer = asked_of(alloc, text.as_str().as_bytes(), file.today, ask)?;
    Ok(answer)
}

/// Returns what the file makes of a result: which entries match it, and whether it is then suppressed. Returns an error
/// if the file has one, or `OutOfMemory` if memory runs out.
pub fn applied_of(
    alloc: Global,
    file: FileText,
    finding: &Record,
) -> Result<Applied, Refusal<FileFault>>
    ensures { IfOk result (λ applied. (bytes : List ℕ) × (parsed : File)
        × (said.file_of bytes file.entry.today ≡ Ok parsed)
        × (applied.entries ≡ matching_numbers parsed finding.now)
        × (applied.suppressed ≡ is_suppressed parsed finding.now)) }
{
    let applied = asked_of_file(alloc, file, |rules| rules.apply(alloc, finding))?;
    Ok(applied)
}

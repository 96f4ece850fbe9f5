//! Calls that the merge doesn't make. Only tests and callers outside this program use them: a file read with the
//! standard hasher, the object of a single entry, and the number of unused entries for a list of whole records.
ghost use Rattle.std.specs.Prelude.{◌≡◌, ◌==◌, ◌<◌, ◌≤◌, count_by, length, not, option_map, slice_get, Ok, Err, Some, IfOk};
ghost use Rattle.std.specs.List.{list_any};
ghost use Rattle.serde_json.specs.View.{view};
ghost use Rattle.sarif_model.specs.Internal.Refusal.{IfFault};
ghost use Rattle.sarif_entries.specs.File as said;
ghost use Rattle.sarif_entries.specs.Matching.{matches};
ghost use Rattle.sarif_suppress.specs.Suppressing.{unused_of};
ghost use Rattle.sarif_entries.specs.Object as written;

use crate::read_file::read_rules_with;
use crate::suppressions::Suppressions;
use sarif_entries::{Entry, FileFault, object_of};
use sarif_model::{Record, Refusal};
use serde_json::Value;
use std::alloc::{AllocError, Global};
use std::hash::{BuildHasher, BuildHasherDefault, FoldHasher};

/// Reads a suppression file for the date `today`, as [`read_rules_with`] does. The tables use the seed of the standard
/// hasher, which the author of a log may know.
pub fn read_rules(
    alloc: Global,
    bytes: &[u8],
    today: Option<u32>,
) -> Result<Suppressions<BuildHasherDefault<FoldHasher>>, Refusal<FileFault>>
    ensures ok { IfOk result (λ file. said.file_of bytes.now today ≡ Ok file) }
    ensures err { IfFault result (λ fault. said.file_of bytes.now today ≡ Err fault) }
{
    let hasher = BuildHasherDefault::<FoldHasher>::new();
    read_rules_with(alloc, hasher, bytes, today)
}

/// Whether the entry matches one of the results on that day.
fn is_used(entry: &Entry, today: Option<u32>, records: &[Record]) -> bool
    ensures { result ≡ list_any (λ r. matches today entry.now r) records.now }
{
    records.iter().any(|record| entry.matches(today, record))
}

/// How many entries match none of the results on that day.
fn count_unused(entries: &[Entry], today: Option<u32>, records: &[Record]) -> usize
    ensures few { result ≤ length entries.now }
    ensures count { result ≡ count_by
        (λ e. not (list_any (λ r. matches today e r) records.now)) entries.now }
{
    entries
        .iter()
        .filter(|entry| !is_used(entry, today, records))
        .count()
}

impl<S: BuildHasher + Copy> Suppressions<S> {
    /// Whether the file has no entries.
    pub fn is_empty(&self) -> bool
        ensures { result ≡ (length self.now.entries == 0) }
    {
        self.entries().is_empty()
    }

    /// Returns how many entries match none of the results. Does not allocate.
    pub fn unused(&self, records: &[Record]) -> u32
        ensures { result ≡ unused_of self.now records.now }
    {
        // There are at most as many, so their number fits.
        let _all = self.len();
        count_unused(self.entries(), self.today(), records) as u32
    }

    /// Returns the object that is written for entry `n`, numbered from 0: its `kind`, which is `external`, its
    /// `status`, and its `justification` if it has one (SARIF 2.1.0, suppression object). Returns `AllocError` if
    /// memory for it runs out.
    pub fn object(&self, alloc: Global, n: u32) -> Result<Value, AllocError>
        requires { n < length self.now.entries }
        ensures { IfOk result
            (λ v. option_map written.object_of (slice_get self.now.entries n) ≡ Some (view v)) }
    {
        object_of(alloc, &self.entries()[n as usize])
    }
}

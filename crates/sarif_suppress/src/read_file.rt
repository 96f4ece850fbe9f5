//! Reading the suppression file, with the tables of its entries.
ghost use Rattle.std.specs.Prelude.{◌≡◌, Ok, Err, IfOk};
ghost use Rattle.sarif_model.specs.Internal.Refusal.{IfFault};
ghost use Rattle.sarif_entries.specs.File.{file_of};

use crate::suppressions::Suppressions;
use sarif_entries::{FileFault, entries_of_file};
use sarif_model::Refusal;
use std::alloc::Global;
use std::hash::BuildHasher;

/// Reads a suppression file, an object with `version` and `suppressions`; `docs/formats.md` describes it. `today`
/// is the date as the number YYYYMMDD, if one is known: no clock is read. The tables of the entries hash with
/// `hasher`, for example a `RandomState` whose seed no log can know. The result does not depend on the hasher. It
/// makes the checks in this order and returns the first error: `NotJson`, `NotList`, `WrongVersion`, `TooMany`, and
/// then for each entry `BadEntry`, `EmptyMatch` and `NeedsToday`. Returns `OutOfMemory` if memory runs out.
pub fn read_rules_with<S: BuildHasher + Copy>(
    alloc: Global,
    hasher: S,
    bytes: &[u8],
    today: Option<u32>,
) -> Result<Suppressions<S>, Refusal<FileFault>>
    ensures ok { IfOk result (λ file. file_of bytes.now today ≡ Ok file) }
    ensures err { IfFault result (λ fault. file_of bytes.now today ≡ Err fault) }
{
    let entries = entries_of_file(alloc, bytes, today)?;
    Ok(Suppressions::new(alloc, hasher, entries, today)?)
}

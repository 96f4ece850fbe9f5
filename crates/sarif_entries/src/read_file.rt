//! Reading the suppression file: first its form, then its entries in order.
ghost use Rattle.std.specs.Prelude.{◌≡◌, ◌≤◌, length, map, Ok, Err, Some, None, IfOk, OnOk};
ghost use Rattle.serde_json.specs.View.{view};
ghost use Rattle.sarif_model.specs.Members.{result_map};
ghost use Rattle.json_parts.specs.Indexed.{json_of};
ghost use Rattle.sarif_model.specs.Internal.Refusal.{IfFault};
ghost use Rattle.sarif_entries.specs.FileFault.{whole};
ghost use Rattle.sarif_entries.specs.File as said;
ghost use Rattle.sarif_model.specs.Limits.{most_entries};

use crate::entry::Entry;
use crate::fault::FileFault;
use crate::read_entry::read_entry;
use crate::version::Version;
use json_parts::without_mark;
use sarif_model::{Fault, MOST_ENTRIES, Refusal};
use serde_json::Value;
use std::alloc::Global;

/// Passes an object with an array `suppressions`, and gives its elements.
#[tactic(auto, using(sarif_model::proofs::Elements::elements_items_view))]
fn check_list(file: &Value) -> Result<&[Value], FileFault>
    ensures { result_map (λ vs. map view vs.now) result ≡ said.check_list (view file.now) }
{
    match file.get("suppressions").and_then(Value::as_array) {
        Some(entries) => Ok(entries.as_slice()),
        None => Err(FileFault::from(Fault::NotList)),
    }
}

/// Passes a file whose `version` is 1, 2, 4 or 5, and gives it.
fn check_version(file: &Value) -> Result<Version, FileFault>
    ensures { result ≡ said.check_version (view file.now) }
{
    match file.get("version").and_then(Value::as_u64) {
        Some(1) => Ok(Version::First),
        Some(2) => Ok(Version::Second),
        Some(4) => Ok(Version::Fourth),
        Some(5) => Ok(Version::Fifth),
        _ => Err(FileFault::from(Fault::WrongVersion)),
    }
}

/// Passes a list of at most `MOST_ENTRIES` entries.
fn check_count(entries: &[Value]) -> Result<(), FileFault>
    ensures passes { result ≡ said.check_count (map view entries.now) }
    ensures few { OnOk result (length entries.now ≤ most_entries) }
{
    if entries.len() <= MOST_ENTRIES {
        Ok(())
    } else {
        Err(FileFault::from(Fault::TooMany))
    }
}

/// Returns the entries, or the first error among them.
#[tactic(auto, using(crate::proofs::FromEntries::goes_on, crate::proofs::FromEntries::stops, crate::proofs::FromEntries::at_end))]
fn read_entries(
    alloc: Global,
    version: Version,
    today: Option<u32>,
    values: &[Value],
) -> Result<Vec<Entry>, Refusal<FileFault>>
    requires { length values.now ≤ most_entries }
    ensures few { IfOk result (λ entries. length entries.items ≤ most_entries) }
    ensures ok { IfOk result (λ entries. said.entries_from version today 0 (map view values.now)
        ≡ Ok entries.items) }
    ensures err { IfFault result
        (λ fault. said.entries_from version today 0 (map view values.now) ≡ Err fault) }
{
    let mut entries = Vec::new(alloc);
    for (number, value) in values.iter().enumerate() {
        entries.push(read_entry(alloc, version, today, number as u32, value)?)?;
    }
    Ok(entries)
}

/// The JSON value of `bytes`.
#[tactic(auto, using(json_parts::proofs::Utf8::json_of_read, json_parts::proofs::Utf8::json_of_refused))]
fn read_json(alloc: Global, bytes: &[u8]) -> Result<Value, Refusal<FileFault>>
    ensures ok { IfOk result (λ v. json_of bytes.now ≡ Some (view v)) }
    ensures err { IfFault result
        (λ fault. (fault ≡ whole Fault.NotJson) × (json_of bytes.now ≡ None)) }
{
    match Value::from_slice(alloc, bytes) {
        Ok(value) => Ok(value),
        Err(error) => {
            if error.is_memory() {
                Err(Refusal::OutOfMemory)
            } else {
                Err(Refusal::Fault(FileFault::from(Fault::NotJson)))
            }
        }
    }
}

/// Returns the entries of the file that a value represents.
#[tactic(auto, unfolding(crate::specs::File::file_of_value))]
fn read_value(
    alloc: Global,
    value: &Value,
    today: Option<u32>,
) -> Result<Vec<Entry>, Refusal<FileFault>>
    ensures few { IfOk result (λ entries. length entries.items ≤ most_entries) }
    ensures ok { IfOk result (λ entries. said.file_of_value today (view value.now)
        ≡ Ok (record { entries = entries.items; today = today })) }
    ensures err { IfFault result (λ fault. said.file_of_value today (view value.now) ≡ Err fault) }
{
    let values = check_list(value)?;
    let version = check_version(value)?;
    check_count(values)?;
    let entries = read_entries(alloc, version, today, values)?;
    Ok(entries)
}

/// Reads the entries of a suppression file, an object with `version` and `suppressions`; `docs/formats.md` describes
/// it. `today` is the date as the number YYYYMMDD, if one is known: no clock is read. There are at most
/// `MOST_ENTRIES` entries, in file order. It makes the checks in this order and returns the first error: `NotJson`,
/// `NotList`, `WrongVersion`, `TooMany`, and then for each entry `BadEntry`, `EmptyMatch` and `NeedsToday`. Returns
/// `OutOfMemory` if memory runs out.
#[tactic(auto, unfolding(crate::specs::File::file_of))]
pub fn entries_of_file(
    alloc: Global,
    bytes: &[u8],
    today: Option<u32>,
) -> Result<Vec<Entry>, Refusal<FileFault>>
    ensures few { IfOk result (λ entries. length entries.items ≤ most_entries) }
    ensures ok { IfOk result (λ entries. said.file_of bytes.now today
        ≡ Ok (record { entries = entries.items; today = today })) }
    ensures err { IfFault result (λ fault. said.file_of bytes.now today ≡ Err fault) }
{
    let value = read_json(alloc, without_mark(bytes))?;
    read_value(alloc, &value, today)
}

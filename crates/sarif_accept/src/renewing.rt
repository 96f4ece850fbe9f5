//! The new suppression file.
ghost use Rattle.std.specs.Prelude.{◌≡◌, ◌≤◌, ◌<◌, ◌+◌, ◌⊎◌, ◌++◌, ◌||◌, Some, None, is_some, map, length, option_map, string_bytes, IfOk, OnOk};
ghost use Rattle.std.specs.Prelude.{if◌then◌else◌};
ghost use Rattle.std.specs.List.{list_any};
ghost use Rattle.serde_json.specs.View.{view, members_view};
ghost use Rattle.sarif_entries.specs.declared.version.Version.TheVariants.{Fourth, Fifth};
ghost use Rattle.json_parts.specs.Indexed.{json_of};
ghost use Rattle.json_parts.specs.Mark.{without_mark as unmarked};
ghost use Rattle.sarif_model.specs.Limits.{most_bytes, most_entries};
ghost use Rattle.sarif_model.specs.Internal.Refusal.{IfFault};
ghost use Rattle.sarif_model.specs.declared.fault.Fault.TheVariants.{TooMany};
ghost use Rattle.sarif_model.specs.declared.merge_fault.Cause.TheVariants.{Of, TooLong};
ghost use Rattle.sarif_accept.specs.Entry as made;
ghost use Rattle.sarif_accept.specs.NewFile as parts;
ghost use Rattle.sarif_accept.specs.NewFile.{file_text};
ghost use Rattle.sarif_accept.specs.Renewed as said;
ghost use Rattle.sarif_accept.specs.Internal.Weighing.{weights_of};

use crate::entry::entry_for;
use crate::indentation::is_too_indented;
use crate::old_file::{Old, read_old};
use crate::printing::print_file;
use crate::weighing::are_too_long;
use sarif_entries::Version;
use sarif_model::{Cause, Fault, MOST_BYTES, MOST_ENTRIES, Record, Refusal};
use sarif_options::Renewal;
use serde_json::{Map, Value, put};
use std::alloc::{AllocError, Global};

/// Checks, before entries are made, that there are at most `MOST_ENTRIES` with the `count` that are kept, and that the strings
/// of those that accept these results have at most `MOST_BYTES` bytes.
fn check_room(
    alloc: Global,
    count: usize,
    added: &[&Record],
    renewal: &Renewal,
) -> Result<(), Refusal<Cause>>
    ensures few { OnOk result (count + length added.now ≤ most_entries) }
    ensures short { OnOk result (weights_of renewal.now (map (λ r. r.now) added.now) ≤ most_bytes) }
    ensures err { IfFault result (λ cause.
        ((cause ≡ Of TooMany) × (most_entries < count + length added.now))
        ⊎ ((cause ≡ TooLong) × (count + length added.now ≤ most_entries)
        × (most_bytes < weights_of renewal.now (map (λ r. r.now) added.now)))) }
{
    if count > MOST_ENTRIES || added.len() > MOST_ENTRIES - count {
        return Err(Refusal::Fault(Cause::Of(Fault::TooMany)));
    }
    if are_too_long(alloc, added, renewal)? {
        return Err(Refusal::Fault(Cause::TooLong));
    }
    Ok(())
}

/// Adds the entries that accept these results to the end. They are few, and so are the bytes of their strings.
fn add_entries(
    alloc: Global,
    entries: &mut Vec<Value>,
    added: &[&Record],
    renewal: &Renewal,
) -> Result<(), AllocError>
    requires few { length entries.old.items + length added.now ≤ most_entries }
    requires short { weights_of renewal.now (map (λ r. r.now) added.now) ≤ most_bytes }
    ensures { OnOk result (map view entries.new.items ≡ map view entries.old.items
        ++ map (λ r. made.entry_for r.now renewal.now.reason renewal.now.until) added.now) }
{
    for record in added {
        entries.push(entry_for(alloc, record, renewal)?)?;
    }
    Ok(())
}

/// Whether the entry of one of these results names a snippet.
fn look_at_snippets(added: &[&Record]) -> bool
    ensures { result ≡ list_any (λ r. is_some r.now.snippet) added.now }
{
    for record in added {
        if record.snippet.is_some() {
            return true;
        }
    }
    false
}

/// The version of the new file: 5 if the old one is of version 5, or if the entry of one of these results names a
/// snippet; otherwise 4.
fn version_after(is_fifth: bool, added: &[&Record]) -> Version
    ensures { result ≡ (if is_fifth || list_any (λ r. is_some r.now.snippet) added.now
        then Fifth else Fourth) }
{
    if is_fifth || look_at_snippets(added) {
        Version::Fifth
    } else {
        Version::Fourth
    }
}

/// The object of these entries and of the other members of a file, of this version.
fn file_with(
    alloc: Global,
    version: Version,
    entries: Vec<Value>,
    others: Map<String, Value>,
) -> Result<Value, AllocError>
    ensures { IfOk result (λ v. view v
        ≡ parts.file_with version (map view entries.items) (members_view others.entries)) }
{
    let mut members = others;
    let number = Value::from(version.number());
    put(&mut members, alloc, "version", number)?;
    put(&mut members, alloc, "suppressions", Value::Array(entries))?;
    Ok(Value::Object(members))
}

/// The new file: the entries of the old one that are marked, those that accept results, and its other members. Returns
/// `TooMany` if it had more than `MOST_ENTRIES` entries, and `TooLong` if the strings of those that accept results had more
/// than `MOST_BYTES` bytes. No entry is made before it is known that there are few of them and that they are short.
fn renewed_file(
    alloc: Global,
    bytes: Option<&[u8]>,
    kept: &[bool],
    added: &[&Record],
    renewal: &Renewal,
) -> Result<Value, Refusal<Cause>>
    ensures value { IfOk result (λ v. view v ≡ said.renewed_file
        (option_map (λ b. b.now) bytes.entry) kept.now (map (λ r. r.now) added.now) renewal.now) }
    ensures few { IfOk result (λ v. length (said.renewed_entries
        (option_map (λ b. b.now) bytes.entry) kept.now (map (λ r. r.now) added.now) renewal.now)
        ≤ most_entries) }
    ensures err { IfFault result (λ cause. said.renewal_cause (option_map (λ b. b.now) bytes.entry)
        kept.now (map (λ r. r.now) added.now) renewal.now ≡ Some cause) }
{
    let Old {
        mut entries,
        others,
        is_fifth,
    } = read_old(alloc, bytes, kept)?;
    check_room(alloc, entries.len(), added, renewal)?;
    add_entries(alloc, &mut entries, added, renewal)?;
    Ok(file_with(alloc, version_after(is_fifth, added), entries, others)?)
}

/// Returns the text of the new suppression file: of the entries of the file `bytes` those that `kept` marks, in order, then
/// the entries that accept the results `added`, its version, and the file's other members without numbers that have a
/// fraction. The version is 5 if that of the file is, or if one of these results has a snippet; otherwise it is 4. Without a file there are no entries and no other members. Returns `TooMany` if it had more than
/// `MOST_ENTRIES` entries, `TooLong` if its text had more than `MOST_BYTES` bytes, so that it could not be read again, and
/// `OutOfMemory` if memory runs out. Checks the indentation before it makes the text, since deep values need a lot of it.
#[tactic(auto, using(crate::proofs::RenewedFile::is_too_long, crate::proofs::RenewedFile::is_accepted))]
pub fn new_file(
    alloc: Global,
    bytes: Option<&[u8]>,
    kept: &[bool],
    added: &[&Record],
    renewal: &Renewal,
) -> Result<String, Refusal<Cause>>
    ensures text { IfOk result (λ s. string_bytes s ≡ file_text (said.renewed_file
        (option_map (λ b. b.now) bytes.entry) kept.now (map (λ r. r.now) added.now) renewal.now)) }
    ensures reads { IfOk result (λ s. json_of (unmarked (string_bytes s)) ≡ Some (said.renewed_file
        (option_map (λ b. b.now) bytes.entry) kept.now (map (λ r. r.now) added.now) renewal.now)) }
    ensures ok { IfOk result (λ s. said.renewal_cause (option_map (λ b. b.now) bytes.entry)
        kept.now (map (λ r. r.now) added.now) renewal.now ≡ None) }
    ensures err { IfFault result (λ cause. said.renewal_cause (option_map (λ b. b.now) bytes.entry)
        kept.now (map (λ r. r.now) added.now) renewal.now ≡ Some cause) }
{
    let file = renewed_file(alloc, bytes, kept, added, renewal)?;
    if is_too_indented(&file) {
        return Err(Refusal::Fault(Cause::TooLong));
    }
    let text = print_file(alloc, &file)?;
    if text.len() > MOST_BYTES {
        return Err(Refusal::Fault(Cause::TooLong));
    }
    Ok(text)
}

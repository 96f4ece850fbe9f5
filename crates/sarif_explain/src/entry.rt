//! The error in an entry of the suppression file.
use crate::checks::{ENTRY_NAMES, entry_checks};
use crate::mismatch::{Found, Mismatch, mismatch_in};
use crate::place::JsonPlace;
use crate::wanted::Wanted;
use sarif_model::Fault;
use serde_json::Value;
use std::alloc::Global;

/// Whether an entry may have a member of that name, in a file of that version, which is 1, 2, 4 or 5.
fn is_known(version: u64, name: &str) -> bool {
    ENTRY_NAMES
        .iter()
        .any(|(own, since)| *own == name && *since <= version)
}

/// The members that an entry may have in a file of that version.
fn members_of(version: u64) -> Wanted {
    match version {
        1 => Wanted::FirstMembers,
        2 => Wanted::SecondMembers,
        4 => Wanted::FourthMembers,
        _ => Wanted::FifthMembers,
    }
}

/// The first member that the version of the file doesn't have.
fn mismatch_of_names<'a>(alloc: Global, version: u64, entry: &JsonPlace<'a>) -> Found<'a> {
    let Value::Object(members) = entry.value else {
        return Ok(None);
    };
    for (name, member) in members.iter() {
        if !is_known(version, name.as_str()) {
            let place = entry.member(alloc, name.as_str(), member)?;
            return Ok(Some(Mismatch::at(place, members_of(version))));
        }
    }
    Ok(None)
}

/// Returns what is wrong in an entry of the file that has this error.
pub(crate) fn mismatch_of_entry<'a>(
    alloc: Global,
    file: &Value,
    entry: &JsonPlace<'a>,
    fault: Fault,
) -> Found<'a> {
    let version = file.get("version").and_then(Value::as_u64);
    if fault == Fault::BadEntry {
        let found = mismatch_of_names(alloc, version.unwrap_or(1), entry)?;
        if found.is_some() {
            return Ok(found);
        }
    }
    mismatch_in(alloc, entry, entry_checks(fault))
}

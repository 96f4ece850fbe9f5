//! The objects of entries at the end of a list.
ghost use Rattle.std.specs.Prelude.{◌≡◌, map, slice_get, IfOk, OnOk};
ghost use Rattle.std.specs.List.{list_any};
ghost use Rattle.serde_json.specs.View.{view};
ghost use Rattle.sarif_entries.specs.Object as object;
ghost use Rattle.sarif_suppress.specs.Written as said;

use crate::unseen::unseen_objects;
use sarif_entries::{Entry, is_object_of, object_of};
use serde_json::Value;
use std::alloc::{AllocError, Global};
use std::hash::BuildHasher;

/// Up to this number of entries, each entry's object is compared with the earlier ones one by one.
const FEW: usize = 4;

/// Adds the entry's object to the end, unless the list already contains an equal one.
fn add_object(alloc: Global, list: &mut Vec<Value>, entry: &Entry) -> Result<(), AllocError>
    ensures { OnOk result (map view list.new.items
        ≡ said.with_object (map view list.old.items) entry.now) }
{
    if holds_object(list.as_slice(), entry) {
        return Ok(());
    }
    list.push(object_of(alloc, entry)?)?;
    Ok(())
}

/// Whether one of the values is the entry's object.
fn holds_object(values: &[Value], entry: &Entry) -> bool
    ensures { result ≡ list_any (object.is_object_of entry.now) (map view values.now) }
{
    for value in values {
        if is_object_of(entry, value) {
            return true;
        }
    }
    false
}

/// Adds the object of the entry with that number to the end, if there is such an entry and the list contains no
/// equal one.
fn add_object_at(
    alloc: Global,
    list: &mut Vec<Value>,
    entries: &[Entry],
    number: u32,
) -> Result<(), AllocError>
    ensures { OnOk result (map view list.new.items
        ≡ said.with_object_if (map view list.old.items) (slice_get entries.now number)) }
{
    match entries.get(number as usize) {
        Some(entry) => add_object(alloc, list, entry),
        None => Ok(()),
    }
}

/// Adds the objects of the entries with these numbers to the end, in order, each only if the list contains no
/// equal one.
fn add_objects(
    alloc: Global,
    list: &mut Vec<Value>,
    entries: &[Entry],
    numbers: &[u32],
) -> Result<(), AllocError>
    ensures { OnOk result (map view list.new.items
        ≡ said.with_objects_at (map view list.old.items) entries.now numbers.now) }
{
    for number in numbers {
        add_object_at(alloc, list, entries, *number)?;
    }
    Ok(())
}

/// Returns the list followed by the objects of the entries with these numbers, each only if no equal one comes
/// before it.
pub(crate) fn with_objects<S: BuildHasher + Copy>(
    alloc: Global,
    hasher: S,
    own: Vec<Value>,
    entries: &[Entry],
    numbers: &[u32],
) -> Result<Vec<Value>, AllocError>
    ensures { IfOk result (λ list. map view list.items
        ≡ said.with_objects_at (map view own.items) entries.now numbers.now) }
{
    let mut list = own;
    if numbers.len() <= FEW {
        add_objects(alloc, &mut list, entries, numbers)?;
    } else {
        let mut unseen = unseen_objects(alloc, hasher, &list, entries, numbers)?;
        list.append(&mut unseen)?;
    }
    Ok(list)
}

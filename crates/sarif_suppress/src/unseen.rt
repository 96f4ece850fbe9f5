//! The objects of entries that a list of suppressions doesn't have yet: one pass over the list, and
//! one over the entries, however many both are.
ghost use Rattle.std.specs.Prelude.{◌≡◌, ◌++◌, ◌∷◌, [], List, map, slice_get, IfOk, OnOk};
ghost use Rattle.serde_json.specs.Data.{Data};
ghost use Rattle.serde_json.specs.View.{view};
ghost use Rattle.sarif_suppress.specs.Internal.Unseen.{HasKeysOf};
ghost use Rattle.sarif_suppress.specs.Written as said;

use indexmap::IndexSet;
use sarif_entries::key::{EntryKey, key_in, key_of};
use sarif_entries::{Entry, object_of};
use serde_json::Value;
use std::alloc::{AllocError, Global};
use std::hash::BuildHasher;

/// Adds the key of the value, where it is the object of an entry.
fn add_key_in<'a, S: BuildHasher + Copy>(
    keys: &mut IndexSet<EntryKey<'a>, S>,
    value: &'a Value,
) -> Result<(), AllocError>
    ensures { OnOk result ((values : List Data) → HasKeysOf keys.old values
        → HasKeysOf keys.new (values ++ view value.now ∷ [])) }
{
    if let Some(key) = key_in(value) {
        keys.insert(key)?;
    }
    Ok(())
}

/// The keys of those values that are objects of entries.
fn keys_in<'a, S: BuildHasher + Copy>(
    alloc: Global,
    hasher: S,
    values: &'a [Value],
) -> Result<IndexSet<EntryKey<'a>, S>, AllocError>
    ensures { IfOk result (λ keys. HasKeysOf keys (map view values.now)) }
{
    let mut keys: IndexSet<EntryKey<'a>, S> = IndexSet::with_hasher(alloc, hasher);
    for value in values {
        add_key_in(&mut keys, value)?;
    }
    Ok(keys)
}

/// Adds the entry's object to the end of the list, and its key to the keys, unless the keys contain it. The keys
/// are those of the list and of what is before it.
fn add_unseen<'a, S: BuildHasher + Copy>(
    alloc: Global,
    keys: &mut IndexSet<EntryKey<'a>, S>,
    list: &mut Vec<Value>,
    entry: &'a Entry,
) -> Result<(), AllocError>
    ensures { OnOk result ((own : List Data)
        → HasKeysOf keys.old (own ++ map view list.old.items)
        → (own ++ map view list.new.items
        ≡ said.with_object (own ++ map view list.old.items) entry.now)
        × HasKeysOf keys.new (own ++ map view list.new.items)) }
{
    if keys.insert(key_of(entry))? {
        list.push(object_of(alloc, entry)?)?;
    }
    Ok(())
}

/// Puts the object of the entry of that number, if there is one, at the end of the list, and its
/// key among the keys, unless it is one of them.
fn add_unseen_at<'a, S: BuildHasher + Copy>(
    alloc: Global,
    keys: &mut IndexSet<EntryKey<'a>, S>,
    list: &mut Vec<Value>,
    entries: &'a [Entry],
    number: u32,
) -> Result<(), AllocError>
    ensures { OnOk result ((own : List Data)
        → HasKeysOf keys.old (own ++ map view list.old.items)
        → (own ++ map view list.new.items ≡ said.with_object_if
        (own ++ map view list.old.items) (slice_get entries.now number))
        × HasKeysOf keys.new (own ++ map view list.new.items)) }
{
    match entries.get(number as usize) {
        Some(entry) => add_unseen(alloc, keys, list, entry),
        None => Ok(()),
    }
}

/// The objects of the entries of these numbers, without each that equals one of the own
/// suppressions or one before it.
pub(crate) fn unseen_objects<'a, S: BuildHasher + Copy>(
    alloc: Global,
    hasher: S,
    own: &'a [Value],
    entries: &'a [Entry],
    numbers: &[u32],
) -> Result<Vec<Value>, AllocError>
    ensures { IfOk result (λ unseen. map view own.now ++ map view unseen.items
        ≡ said.with_objects_at (map view own.now) entries.now numbers.now) }
{
    let mut keys = keys_in(alloc, hasher, own)?;
    let mut unseen = Vec::new(alloc);
    for number in numbers {
        add_unseen_at(alloc, &mut keys, &mut unseen, entries, *number)?;
    }
    Ok(unseen)
}

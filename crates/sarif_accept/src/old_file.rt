//! What a new suppression file takes from the old one.
ghost use Rattle.std.specs.Prelude.{◌≡◌, ◌++◌, None, map, codes, option_map, option_and_then, unwrap_or, IfOk, OnOk};
ghost use Rattle.serde_json.specs.Data.{no_members};
ghost use Rattle.serde_json.specs.Find.{get, as_array, as_object};
ghost use Rattle.serde_json.specs.View.{view, members_view};
ghost use Rattle.json_parts.specs.Indexed.{data_of};
ghost use Rattle.sarif_accept.specs.Internal.Flags.{if_marked};
ghost use Rattle.sarif_accept.specs.Keeping.{chosen};
ghost use Rattle.sarif_accept.specs.NewFile as said;
ghost use Rattle.sarif_entries.specs.File.{is_fifth};
ghost use Rattle.sarif_model.specs.Run.{elements_or_none};

use crate::marked::is_marked;
use json::Scratch;
use json_parts::{IndexFault, Node, index_text, without_mark};
use sarif_entries::is_fifth;
use serde_json::{Map, Value};
use std::alloc::{AllocError, Global};

/// What a new suppression file takes from the old one.
#[derive(Drop)]
pub(crate) struct Old {
    /// The entries that stay.
    pub(crate) entries: Vec<Value>,
    /// Its other members.
    pub(crate) others: Map<String, Value>,
    /// Whether it is of version 5.
    pub(crate) is_fifth: bool,
}

/// The members of a value; one that is not an object has none.
fn into_members(alloc: Global, value: Value) -> Map<String, Value>
    ensures { members_view result.entries ≡ unwrap_or (as_object (view value)) no_members }
{
    match value {
        Value::Object(members) => members,
        _ => Map::new(alloc),
    }
}

/// The entries of a file.
#[tactic(auto, using(sarif_model::proofs::Elements::items_back))]
pub(crate) fn entry_nodes<'t, 'a>(
    alloc: Global,
    file: &Node<'t, 'a>,
) -> Result<Vec<Node<'t, 'a>>, AllocError>
    ensures { IfOk result (λ nodes. map data_of nodes.items ≡ elements_or_none
        (option_and_then as_array (get (codes "suppressions") (data_of file.now)))) }
{
    match file.get("suppressions") {
        Some(list) => match list.items(alloc)? {
            Some(entries) => Ok(entries),
            None => Ok(Vec::new(alloc)),
        },
        None => Ok(Vec::new(alloc)),
    }
}

/// The value of an entry.
pub(crate) fn entry_value(alloc: Global, entry: &Node<'_, '_>) -> Result<Value, AllocError>
    ensures { IfOk result (λ v. view v ≡ said.entry_in (data_of entry.now)) }
{
    let value = entry.to_value(alloc)?;
    Ok(Value::Object(into_members(alloc, value)))
}

/// Adds the value of an entry, if it is marked.
fn push_marked(
    alloc: Global,
    values: &mut Vec<Value>,
    marked: bool,
    entry: &Node<'_, '_>,
) -> Result<(), AllocError>
    ensures { OnOk result (map view values.new.items
        ≡ map view values.old.items ++ if_marked marked (said.entry_in (data_of entry.now))) }
{
    if marked {
        values.push(entry_value(alloc, entry)?)?;
    }
    Ok(())
}

/// The values of the marked entries.
#[tactic(auto, using(crate::proofs::Flags::chosen_goes_on, crate::proofs::Flags::chosen_end))]
fn kept_values(
    alloc: Global,
    entries: &[Node<'_, '_>],
    kept: &[bool],
) -> Result<Vec<Value>, AllocError>
    ensures { IfOk result (λ values. map view values.items
        ≡ chosen kept.now (map (λ ts. said.entry_in (data_of ts)) entries.now)) }
{
    let mut values = Vec::new(alloc);
    for (number, entry) in entries.iter().enumerate() {
        push_marked(alloc, &mut values, is_marked(kept, number), entry)?;
    }
    Ok(values)
}

/// What is taken from a file: its entries that `kept` marks, and its other members.
#[tactic(auto, using(crate::proofs::Taken::chosen_of_nodes))]
fn take_from(alloc: Global, file: &Node<'_, '_>, kept: &[bool]) -> Result<Old, AllocError>
    ensures version { IfOk result (λ old. old.is_fifth ≡ is_fifth (data_of file.now)) }
    ensures entries { IfOk result (λ old. map view old.entries.items
        ≡ chosen kept.now (said.entries_in (data_of file.now))) }
    ensures others { IfOk result
        (λ old. members_view old.others.entries ≡ said.others_in (data_of file.now)) }
{
    let nodes = entry_nodes(alloc, file)?;
    let entries = kept_values(alloc, &nodes, kept)?;
    let others = into_members(alloc, file.to_value_without(alloc, "suppressions")?);
    Ok(Old {
        entries,
        others,
        is_fifth: is_fifth(file),
    })
}

/// The contents without a file.
#[tactic(auto, using(crate::proofs::Taken::none_chosen))]
fn nothing(alloc: Global, kept: &[bool]) -> Old
    ensures version { result.is_fifth ≡ is_fifth (said.file_object None) }
    ensures entries { map view result.entries.items
        ≡ chosen kept.now (said.entries_in (said.file_object None)) }
    ensures others { members_view result.others.entries ≡ said.others_in (said.file_object None) }
{
    Old {
        entries: Vec::new(alloc),
        others: Map::new(alloc),
        is_fifth: false,
    }
}

/// What a new file takes from this one, if there is one: the entries that `kept` marks, and the other members.
pub(crate) fn read_old(
    alloc: Global,
    bytes: Option<&[u8]>,
    kept: &[bool],
) -> Result<Old, AllocError>
    ensures version { IfOk result (λ old. old.is_fifth
        ≡ is_fifth (said.file_object (option_map (λ b. b.now) bytes.entry))) }
    ensures entries { IfOk result (λ old. map view old.entries.items ≡ chosen kept.now
        (said.entries_in (said.file_object (option_map (λ b. b.now) bytes.entry)))) }
    ensures others { IfOk result (λ old. members_view old.others.entries
        ≡ said.others_in (said.file_object (option_map (λ b. b.now) bytes.entry))) }
{
    let Some(bytes) = bytes else {
        return Ok(nothing(alloc, kept));
    };
    let mut scratch = Scratch::new(alloc);
    match index_text(alloc, without_mark(bytes), &mut scratch) {
        Ok(index) => take_from(alloc, &index.root(), kept),
        Err(IndexFault::NotJson) => Ok(nothing(alloc, kept)),
        Err(IndexFault::OutOfMemory) => Err(AllocError),
    }
}

//! The list of the unused entries of a suppression file.
ghost use Rattle.std.specs.Prelude.{◌≡◌, ◌++◌, List, chars, Some, map, option_map, slice_get, string_bytes, IfOk, OnOk};
ghost use Rattle.serde_json.specs.Written.{compact_text};
ghost use Rattle.json_parts.specs.Indexed.{data_of};
ghost use Rattle.sarif_findings.specs.Shown.{shown as shown_text};
ghost use Rattle.sarif_model.specs.declared.record.Record.{Record};
ghost use Rattle.sarif_suppress.specs.Internal.Marks.{marks_of};
ghost use Rattle.sarif_accept.specs.Internal.Flags.{line_at, lines_by};
ghost use Rattle.sarif_accept.specs.NewFile.{file_object, entries_in, entry_in};
ghost use Rattle.sarif_accept.specs.Unused as said;

use crate::marked::is_marked;
use crate::old_file::{entry_nodes, entry_value};
use json::Scratch;
use json_parts::{IndexFault, Node, index_text, without_mark};
use sarif_entries::Entry;
use sarif_findings::show_text;
use sarif_suppress::{Marks, Suppressions};
use std::alloc::{AllocError, Global};
use std::hash::BuildHasher;

/// Why an entry is unused.
fn reason_of(expired: bool) -> &'static str
    ensures { result.now ≡ said.reason_of expired }
{
    if expired { "expired" } else { "unmatched" }
}

/// Adds what comes before the text of the entry with that number.
#[tactic(auto, using(crate::proofs::Lines::head_joined))]
fn push_head(
    alloc: Global,
    text: &mut String,
    number: usize,
    expired: bool,
) -> Result<(), AllocError>
    ensures { OnOk result (string_bytes text.new
        ≡ string_bytes text.old ++ said.head_of number expired) }
{
    text.push_str("entry ")?;
    text.push_str(number.to_string(alloc)?.as_str())?;
    text.push_str(": ")?;
    text.push_str(reason_of(expired))?;
    text.push_str(": ")?;
    Ok(())
}

/// The text of an entry, as it is shown.
#[tactic(auto, using(crate::proofs::NoFraction::in_whole))]
fn shown_entry(alloc: Global, entry: &Node<'_, '_>) -> Result<String, AllocError>
    ensures { IfOk result (λ s. string_bytes s
        ≡ shown_text (chars (compact_text (entry_in (data_of entry.now))))) }
{
    let text = entry_value(alloc, entry)?.to_string(alloc)?;
    show_text(alloc, text.as_str())
}

/// Adds the line of the entry with that number.
#[tactic(auto, using(crate::proofs::Lines::line_joined))]
fn push_line(
    alloc: Global,
    text: &mut String,
    number: usize,
    expired: bool,
    entry: &Node<'_, '_>,
) -> Result<(), AllocError>
    ensures { OnOk result (string_bytes text.new ≡ string_bytes text.old
        ++ said.line_of number expired (entry_in (data_of entry.now))) }
{
    let value = shown_entry(alloc, entry)?;
    push_head(alloc, text, number, expired)?;
    text.push_str(value.as_str())?;
    text.push('\n')?;
    Ok(())
}

/// Adds the line of the entry with that number, unless it is used.
fn push_unused(
    alloc: Global,
    text: &mut String,
    number: usize,
    expired: bool,
    used: &[bool],
    nodes: &[Node<'_, '_>],
) -> Result<(), AllocError>
    ensures { OnOk result (string_bytes text.new ≡ string_bytes text.old
        ++ line_at used.now number expired
        (option_map (λ ts. entry_in (data_of ts)) (slice_get nodes.now number))) }
{
    if let Some(node) = nodes.get(number) {
        if !is_marked(used, number) {
            push_line(alloc, text, number, expired, node)?;
        }
    }
    Ok(())
}

/// Returns the lines of the unused ones of these entries, which were read from the values at these nodes.
#[tactic(auto, using(crate::proofs::Flags::lines_go_on, crate::proofs::Flags::lines_end))]
fn lines_of(
    alloc: Global,
    entries: &[Entry],
    used: &[bool],
    today: Option<u32>,
    nodes: &[Node<'_, '_>],
) -> Result<String, AllocError>
    ensures { IfOk result (λ text. string_bytes text ≡ lines_by today used.now 0 entries.now
        (map (λ ts. entry_in (data_of ts)) nodes.now)) }
{
    let mut text = String::new(alloc);
    for (number, entry) in entries.iter().enumerate() {
        let expired = entry.is_expired(today);
        push_unused(alloc, &mut text, number, expired, used, nodes)?;
    }
    Ok(text)
}

/// Returns the lines of the unused entries of the file, which was read from the value at this node.
fn lines_in<S: BuildHasher + Copy>(
    alloc: Global,
    node: &Node<'_, '_>,
    file: &Suppressions<S>,
    marks: &Marks,
) -> Result<String, AllocError>
    ensures { (rs : List Record) → marks.now ≡ marks_of file.now rs
        → IfOk result (λ text. string_bytes text
        ≡ said.unused_text file.now rs (entries_in (data_of node.now))) }
{
    let nodes = entry_nodes(alloc, node)?;
    lines_of(
        alloc,
        file.entries(),
        marks.as_slice(),
        file.today(),
        &nodes,
    )
}

/// Returns a line for each unused entry of the file, in order: its number from 0, whether it expired or matched nothing,
/// and its text, made safe to show. `marks` marks the entries that match a current result, and `bytes` are the bytes
/// of the file. Returns `AllocError` if memory for the text runs out.
#[tactic(auto, using(crate::proofs::Flags::no_file))]
pub fn unused_lines<S: BuildHasher + Copy>(
    alloc: Global,
    bytes: &[u8],
    file: &Suppressions<S>,
    marks: &Marks,
) -> Result<String, AllocError>
    ensures { (rs : List Record) → marks.now ≡ marks_of file.now rs
        → IfOk result (λ text. string_bytes text
        ≡ said.unused_text file.now rs (entries_in (file_object (Some bytes.now)))) }
{
    let mut scratch = Scratch::new(alloc);
    match index_text(alloc, without_mark(bytes), &mut scratch) {
        Ok(index) => lines_in(alloc, &index.root(), file, marks),
        Err(IndexFault::NotJson) => Ok(String::new(alloc)),
        Err(IndexFault::OutOfMemory) => Err(AllocError),
    }
}

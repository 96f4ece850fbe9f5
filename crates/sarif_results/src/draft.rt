//! A written result without its baseline state.
ghost use Rattle.std.specs.Prelude.{◌≡◌, IfOk, false, codes, string_bytes};
ghost use Rattle.serde_json.specs.Data.{array, string};
ghost use Rattle.serde_json.specs.Find.{get};
ghost use Rattle.serde_json.specs.View.{view, items_view, members_view};
ghost use Rattle.serde_json.specs.Written.{compact_text, has_float, items_have_float, members_have_float};
ghost use Rattle.json_parts.specs.Indexed.{data_of};
ghost use Rattle.json_parts.specs.Stripping.{stripped};
ghost use Rattle.json_parts.specs.Internal.Around.{surrounding};
ghost use Rattle.sarif_model.specs.Level.{level_name};
ghost use Rattle.sarif_counts.specs.CountOf.{suppresses};
ghost use Rattle.sarif_suppress.specs.Written.{suppressions_of};
ghost use Rattle.sarif_results.specs.Drafts.{applied_of, unapplied, draft_by, drafted_members, members_in};

use crate::annotate::own_of;
use json_parts::{Around, Node};
use json_texts::{SetMember, text_around};
use sarif_counts::is_suppressing;
use sarif_entries::object_holds_no_fraction;
use sarif_model::{Level, Record, Sequence};
use sarif_suppress::{Applied, Suppressions, written_passes_where_its_parts_do};
use serde_json::{Map, Value};
use std::alloc::{AllocError, Global};

/// A result with its level and its suppressions, as JSON that is open at its baseline state (SARIF 2.1.0,
/// "result object").
#[derive(Debug, Drop)]
pub struct Draft {
    /// Its effective level.
    pub level: Level,
    /// Whether its suppressions suppress it.
    pub suppressed: bool,
    /// Which entries of the suppression file match it.
    pub applied: Applied,
    /// Its text, open at the value of `baselineState`.
    pub text: Around,
}

/// The members of an object; a value that is not an object has none.
pub fn into_members(alloc: Global, value: Value) -> Map<String, Value>
    requires whole { has_float (view value) ≡ false }
    ensures members { members_view result.entries ≡ members_in (view value) }
    ensures whole { members_have_float (members_view result.entries) ≡ false }
{
    match value {
        Value::Object(members) => members,
        _ => Map::new(alloc),
    }
}

/// The JSON text of a level.
fn level_text(level: Level) -> &'static str
    ensures { result.now ≡ compact_text (string (level_name level)) }
{
    match level {
        Level::NoLevel => "\"none\"",
        Level::Note => "\"note\"",
        Level::Warning => "\"warning\"",
        Level::Error => "\"error\"",
    }
}

/// The JSON of suppressions. Most results have none.
fn list_text(alloc: Global, list: Vec<Value>) -> Result<String, AllocError>
    requires list { items_have_float (items_view list.items) ≡ false }
    ensures { IfOk result
        (λ text. string_bytes text ≡ compact_text (array (items_view list.items))) }
{
    if list.as_slice().is_empty() {
        let none = String::from_str(alloc, "[]")?;
        return Ok(none);
    }
    Value::Array(list).to_string(alloc)
}

/// The text of a result with that level and these suppressions, written from its tokens.
fn text_from(
    alloc: Global,
    node: &Node<'_, '_>,
    level: Level,
    list: Vec<Value>,
) -> Result<Around, AllocError>
    requires list { items_have_float (items_view list.items) ≡ false }
    ensures { IfOk result (λ text. text ≡ surrounding (codes "baselineState")
        (drafted_members level (items_view list.items)
        (members_in (stripped (data_of node.now))))) }
{
    let listed = list_text(alloc, list)?;
    let set = [
        SetMember {
            name: "suppressions",
            text: listed.as_str(),
        },
        SetMember {
            name: "level",
            text: level_text(level),
        },
    ];
    text_around(alloc, node, "baselineState", &set, false)
}

/// The draft of a result of a node, with that level and these suppressions.
fn finish_draft(
    alloc: Global,
    node: &Node<'_, '_>,
    level: Level,
    list: Vec<Value>,
    applied: Applied,
) -> Result<Draft, AllocError>
    requires list { items_have_float (items_view list.items) ≡ false }
    ensures { IfOk result (λ draft. draft ≡ record {
      level = level;
      suppressed = suppresses (items_view list.items);
      applied = applied;
      text = surrounding (codes "baselineState") (drafted_members level (items_view list.items)
          (members_in (stripped (data_of node.now))));
    }) }
{
    let suppressed = is_suppressing(&list);
    let text = text_from(alloc, node, level, list)?;
    Ok(Draft {
        level,
        suppressed,
        applied,
        text,
    })
}

/// Returns the draft of the current result of a node, which holds no number with a fraction: with its effective level,
/// its own suppressions and those that the suppression file adds. `found` has its own suppressions, and may have its
/// other members. Returns `AllocError` if memory for it runs out.
pub fn draft_current(
    alloc: Global,
    node: &Node<'_, '_>,
    found: Value,
    record: &Record,
    file: &Suppressions,
) -> Result<Draft, AllocError>
    requires whole { has_float (stripped (data_of node.now)) ≡ false }
    requires own { get (codes "suppressions") (view found)
        ≡ get (codes "suppressions") (stripped (data_of node.now)) }
    ensures { IfOk result (λ draft. draft ≡ draft_by (λ r own. suppressions_of own file.now r)
        (applied_of file.now) «record».now (members_in (stripped (data_of node.now)))) }
{
    let own = own_of(alloc, found);
    let applied = file.apply(alloc, record)?;
    let list = file.write_suppressions(alloc, own, &applied)?;
    object_holds_no_fraction();
    written_passes_where_its_parts_do();
    let draft = finish_draft(alloc, node, record.level, list, applied)?;
    Ok(draft)
}

/// Returns the draft of the baseline result of a node, which holds no number with a fraction: with its effective level
/// and its own suppressions. `found` has its own suppressions, and may have its other members. Returns `AllocError` if
/// memory for it runs out.
pub fn draft_absent(
    alloc: Global,
    node: &Node<'_, '_>,
    found: Value,
    record: &Record,
) -> Result<Draft, AllocError>
    requires whole { has_float (stripped (data_of node.now)) ≡ false }
    requires own { get (codes "suppressions") (view found)
        ≡ get (codes "suppressions") (stripped (data_of node.now)) }
    ensures { IfOk result (λ draft. draft ≡ draft_by (λ _ own. own) unapplied
        «record».now (members_in (stripped (data_of node.now)))) }
{
    let own = own_of(alloc, found);
    let applied = Applied {
        entries: Sequence::new(alloc),
        suppressed: false,
    };
    let draft = finish_draft(alloc, node, record.level, own, applied)?;
    Ok(draft)
}

//! How many bytes the line breaks and the indentation of a new suppression file have, before its text is made.
ghost use Rattle.std.specs.Prelude.{◌≡◌, ◌+◌, ◌<◌, ◌≤◌, None, IfSome, nat_lt};
ghost use Rattle.serde_json.specs.View.{view, items_view, members_view};
ghost use Rattle.sarif_model.specs.Limits.{most_bytes};
ghost use Rattle.sarif_accept.specs.Internal.Weighing as said;

use sarif_model::MOST_BYTES;
use serde_json::{Map, Value};

/// What is left of this number of bytes after the lines in a value whose own line begins with `width` bytes; `None` if
/// the lines have more.
#[cycle(indentation)]
#[tactic(auto, using(crate::proofs::LineWidths::item_lines_left))]
fn left_after_value(left: usize, width: usize, value: &Value) -> Option<usize>
    requires few { left ≤ most_bytes }
    requires narrow { width ≤ most_bytes }
    ensures some { IfSome result (λ rest. rest + said.lines_in width (view value.now) ≡ left) }
    ensures none { result ≡ None → left < said.lines_in width (view value.now) }
{
    match value {
        Value::Array(items) => left_after_items(left, width + 2, items),
        Value::Object(members) => left_after_members(left, width + 2, members),
        Value::Null | Value::Bool(_) | Value::Number(_) | Value::String(_) => Some(left),
    }
}

/// What is left of this number of bytes after the line of an element or a member, and the lines in it.
#[cycle(indentation)]
#[tactic(auto, using(crate::proofs::LineWidths::item_lines_left))]
fn left_after_line(left: usize, width: usize, value: &Value) -> Option<usize>
    requires few { left ≤ most_bytes }
    ensures some { IfSome result
        (λ rest. rest + (width + said.lines_in width (view value.now)) ≡ left) }
    ensures none { result ≡ None → left < width + said.lines_in width (view value.now) }
{
    let left = left.checked_sub(width)?;
    left_after_value(left, width, value)
}

/// What is left of this number of bytes after the lines of an array's elements, and the lines in them.
#[cycle(indentation)]
#[tactic(auto, using(crate::proofs::LineWidths::item_lines_left))]
fn left_after_items(left: usize, width: usize, items: &Vec<Value>) -> Option<usize>
    requires few { left ≤ most_bytes }
    ensures some { IfSome result
        (λ rest. rest + said.item_lines width (items_view items.now.items) ≡ left) }
    ensures none { result ≡ None → left < said.item_lines width (items_view items.now.items) }
{
    let mut rest = left;
    for item in items {
        match left_after_line(rest, width, item) {
            Some(less) => rest = less,
            None => return None,
        }
    }
    Some(rest)
}

/// What is left of this number of bytes after the lines of an object's members, and the lines in them.
#[cycle(indentation)]
#[tactic(auto, using(crate::proofs::LineWidths::item_lines_left))]
fn left_after_members(left: usize, width: usize, members: &Map<String, Value>) -> Option<usize>
    requires few { left ≤ most_bytes }
    ensures some { IfSome result
        (λ rest. rest + said.member_lines width (members_view members.now.entries) ≡ left) }
    ensures none { result ≡ None
        → left < said.member_lines width (members_view members.now.entries) }
{
    let mut rest = left;
    for (_, member) in members.iter() {
        match left_after_line(rest, width, member) {
            Some(less) => rest = less,
            None => return None,
        }
    }
    Some(rest)
}

/// Whether the line breaks and the indentation of a file's text have more than `MOST_BYTES` bytes, even without the lines
/// of closing brackets. Does not allocate.
pub(crate) fn is_too_indented(file: &Value) -> bool
    ensures { result ≡ nat_lt most_bytes (said.lines_in 1 (view file.now)) }
{
    left_after_value(MOST_BYTES, 1, file).is_none()
}

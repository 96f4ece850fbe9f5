//! Stripping: numbers with a fraction or an exponent go with the member that holds them.
ghost use Rattle.std.specs.Prelude.{◌≡◌, not, IfOk, IsTrue, map};
ghost use Rattle.serde_json.specs.View.{view, items_view, members_view};
ghost use Rattle.sarif_read.specs.Stripping.{is_fractional, any_fractional};
ghost use Rattle.sarif_read.specs.Stripping.{stripped, stripped_members};

use serde_json::{Map, Value};
use std::alloc::AllocError;

/// Returns a copy of `value` without each object member whose value is a number not held as an integer, or an
/// array that holds such a number directly or within arrays only, at every depth. Returns `AllocError` if memory
/// for the copy runs out.
pub fn strip(value: &Value) -> Result<Value, AllocError>
    ensures { IfOk result (λ v. view v ≡ stripped (view value.now)) }
{
    let mut copy = value.clone()?;
    strip_in_place(&mut copy);
    Ok(copy)
}

/// Strips `value` in place, as [`strip`] does to a copy. Does not allocate.
#[cycle(strip)]
#[tactic(auto, using(crate::proofs::Stripped::stripped_items_view, crate::proofs::Stripped::item_depth_at, std::proofs::lemmas::List::take_all))]
pub fn strip_in_place(value: &mut Value)
    ensures { view value.new ≡ stripped (view value.old) }
{
    match value {
        Value::Array(items) => strip_items(items),
        Value::Object(members) => strip_members(members),
        Value::Null | Value::Bool(_) | Value::Number(_) | Value::String(_) => {}
    }
}

/// Strips each element of an array.
#[cycle(strip)]
#[tactic(auto, using(crate::proofs::Stripped::stripped_items_view, crate::proofs::Stripped::item_depth_at, std::proofs::lemmas::List::take_all))]
fn strip_items(items: &mut Vec<Value>)
    ensures { map view items.new.items ≡ map (λ v. stripped (view v)) items.old.items }
{
    for item in items.iter_mut() {
        strip_in_place(item);
    }
}

#[cycle(strip)]
#[tactic(auto, using(crate::proofs::Stripped::stripped_items_view, crate::proofs::Stripped::item_depth_at, std::proofs::lemmas::List::take_all))]
fn strip_members(members: &mut Map<String, Value>)
    ensures { members_view members.new.entries
        ≡ stripped_members (members_view members.old.entries) }
{
    members.retain(
        |_, member| -> bool
            ensures kept { result ≡ not (is_fractional (view member.old)) }
            ensures stripped { IsTrue result → view member.new ≡ stripped (view member.old) }
        {
            let kept = !is_fractional_value(member);
            if kept {
                strip_in_place(member);
            }
            kept
        },
    );
}

/// Whether this is a number that isn't whole, or an array that holds one directly or within arrays.
#[cycle(fractions)]
fn is_fractional_value(value: &Value) -> bool
    ensures { result ≡ is_fractional (view value.now) }
{
    match value {
        Value::Number(number) => number.is_f64(),
        Value::Array(items) => has_fractional(items),
        Value::Null | Value::Bool(_) | Value::String(_) | Value::Object(_) => false,
    }
}

#[cycle(fractions)]
fn has_fractional(items: &Vec<Value>) -> bool
    ensures { result ≡ any_fractional (items_view items.now.items) }
{
    for item in items {
        if is_fractional_value(item) {
            return true;
        }
    }
    false
}

//! A result's own suppressions.
ghost use Rattle.std.specs.Prelude.{◌≡◌, codes, Some};
ghost use Rattle.serde_json.specs.Find.{get};
ghost use Rattle.serde_json.specs.View.{view, items_view, members_view};
ghost use Rattle.sarif_results.specs.Annotated.{own_suppressions};
ghost use Rattle.sarif_counts.specs.CountOf.{items_in};

use serde_json::{Map, Value};
use std::alloc::Global;

/// The items of an array; a value that is not an array has none.
fn into_items(alloc: Global, value: Value) -> Vec<Value>
    ensures { items_view result.items ≡ items_in (Some (view value)) }
{
    match value {
        Value::Array(items) => items,
        _ => Vec::new(alloc),
    }
}

/// Takes a result's own suppressions out of its members.
fn take_suppressions(alloc: Global, members: &mut Map<String, Value>) -> Vec<Value>
    ensures { items_view result.items ≡ own_suppressions (members_view members.old.entries) }
{
    match members.remove("suppressions") {
        Some(found) => into_items(alloc, found),
        None => Vec::new(alloc),
    }
}

/// A result's own suppressions, of a value that has some of its members.
pub(crate) fn own_of(alloc: Global, found: Value) -> Vec<Value>
    ensures { items_view result.items ≡ items_in (get (codes "suppressions") (view found)) }
{
    match found {
        Value::Object(members) => {
            let mut members = members;
            take_suppressions(alloc, &mut members)
        }
        _ => Vec::new(alloc),
    }
}

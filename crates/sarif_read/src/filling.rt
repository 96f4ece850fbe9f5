//! All results of a run of an indexed log.
ghost use Rattle.std.specs.Prelude.{◌≡◌, Some, map, codes, IfOk, OnOk};
ghost use Rattle.serde_json.specs.Data.{put};
ghost use Rattle.serde_json.specs.View.{view, members_view};
ghost use Rattle.sarif_read.specs.Internal.Listed.{value_at};
ghost use Rattle.sarif_read.specs.Internal.Indexed.{with_member};

use json_parts::Node;
use serde_json::{Map, Value};
use std::alloc::{AllocError, Global};

/// The values at these places, stripped.
pub(crate) fn values_of(alloc: Global, nodes: &[Node<'_, '_>]) -> Result<Vec<Value>, AllocError>
    ensures { IfOk result (λ values. map view values.items ≡ map value_at nodes.now) }
{
    let mut values = Vec::with_capacity(alloc, nodes.len())?;
    for node in nodes {
        values.push(node.to_value(alloc)?)?;
    }
    Ok(values)
}

fn put_results(
    alloc: Global,
    members: &mut Map<String, Value>,
    results: Value,
) -> Result<(), AllocError>
    ensures { OnOk result (members_view members.new.entries
        ≡ put (codes "results") (view results) (members_view members.old.entries)) }
{
    let key = String::from_str(alloc, "results")?;
    let old = members.insert(key, results)?;
    drop(old);
    Ok(())
}

/// A run with these results; a value that is not an object is unchanged.
pub(crate) fn with_results(alloc: Global, run: Value, results: Value) -> Result<Value, AllocError>
    ensures { IfOk result (λ whole. view whole
        ≡ with_member (codes "results") (Some (view results)) (view run)) }
{
    match run {
        Value::Object(mut members) => {
            put_results(alloc, &mut members, results)?;
            Ok(Value::Object(members))
        }
        _ => Ok(run),
    }
}

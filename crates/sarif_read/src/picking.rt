//! Some of the members of a value of an indexed document: a value may hold much more than is needed.
ghost use Rattle.std.specs.Prelude.{◌≡◌, map, IfOk, OnOk};
ghost use Rattle.serde_json.specs.Find.{get};
ghost use Rattle.serde_json.specs.View.{view, members_view};
ghost use Rattle.sarif_read.specs.Internal.Listed.{value_at};
ghost use Rattle.sarif_read.specs.Internal.Picked.{picked};
ghost use Rattle.sarif_model.specs.Written.{with_value};

use crate::nodes::kept_member;
use json_parts::Node;
use serde_json::{Map, Value, put};
use std::alloc::{AllocError, Global};

/// Adds the member `name`, where the value has it.
#[tactic(auto, using(crate::proofs::PickedMembers::data_ordered))]
fn copy_member(
    alloc: Global,
    members: &mut Map<String, Value>,
    node: &Node<'_, '_>,
    name: &str,
) -> Result<(), AllocError>
    ensures { OnOk result (members_view members.new.entries ≡ with_value name.now
        (get name.now (value_at node.now)) (members_view members.old.entries)) }
{
    if let Some(member) = kept_member(node, name) {
        put(members, alloc, name, member.to_value(alloc)?)?;
    }
    Ok(())
}

/// The members of these names that the value has.
pub(crate) fn pick_members(
    alloc: Global,
    node: &Node<'_, '_>,
    names: &[&str],
) -> Result<Value, AllocError>
    ensures { IfOk result (λ value. view value
        ≡ picked (map (λ name. name.now) names.now) (value_at node.now)) }
{
    let mut members = Map::new(alloc);
    for name in names {
        copy_member(alloc, &mut members, node, name)?;
    }
    Ok(Value::Object(members))
}

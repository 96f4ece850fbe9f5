//! Values made from an indexed text, stripped at once.
ghost use Rattle.std.specs.Prelude.{◌≡◌, IfOk, option_map};
ghost use Rattle.serde_json.specs.Find.{as_array, as_object};
ghost use Rattle.serde_json.specs.View.{view, items_view, members_view};
ghost use Rattle.json_parts.specs.Indexed.{data_of};
ghost use Rattle.json_parts.specs.Stripping.{stripped, stripped_items};
ghost use Rattle.json_parts.specs.Internal.Walking.{is_left_out, kept_members};
ghost use Rattle.json_parts.specs.Without.{without_member};

use crate::node::Node;
use crate::walking::{next_element, next_member};
use serde_json::{Map, Value};
use std::alloc::{AllocError, Global};

impl<'t, 'a> Node<'t, 'a> {
    /// The value without each object member whose value is a number not held as an integer, or an array that holds
    /// such a number directly or within arrays only, at every depth. Returns `AllocError` if memory for it runs
    /// out.
    pub fn to_value(&self, alloc: Global) -> Result<Value, AllocError>
        ensures { IfOk result (λ v. view v ≡ stripped (data_of self.now)) }
    {
        make_value(alloc, self)
    }

    /// The value as `to_value` makes it, but without the member `name` of this object itself; nested objects keep
    /// theirs. A value that is not an object is made completely. Returns `AllocError` if memory for it runs out.
    pub fn to_value_without(&self, alloc: Global, name: &str) -> Result<Value, AllocError>
        ensures { IfOk result
            (λ v. view v ≡ stripped (without_member name.now (data_of self.now))) }
    {
        match make_object(alloc, self, Some(name))? {
            Some(members) => Ok(Value::Object(members)),
            None => make_value(alloc, self),
        }
    }
}

#[cycle(making)]
fn make_value(alloc: Global, node: &Node<'_, '_>) -> Result<Value, AllocError>
    ensures { IfOk result (λ v. view v ≡ stripped (data_of node.now)) }
{
    if let Some(text) = node.as_str() {
        return Ok(Value::String(String::from_str(alloc, text)?));
    }
    if let Some(number) = node.number() {
        return Ok(Value::Number(number));
    }
    if let Some(members) = make_object(alloc, node, None)? {
        return Ok(Value::Object(members));
    }
    if let Some(items) = make_array(alloc, node)? {
        return Ok(Value::Array(items));
    }
    match node.as_bool() {
        Some(b) => Ok(Value::Bool(b)),
        None => Ok(Value::Null),
    }
}

#[cycle(making)]
fn make_array(alloc: Global, node: &Node<'_, '_>) -> Result<Option<Vec<Value>>, AllocError>
    ensures { IfOk result (λ made. option_map (λ v. items_view v.items) made
        ≡ option_map stripped_items (as_array (data_of node.now))) }
{
    let Some(mut elements) = node.elements() else {
        return Ok(None);
    };
    let mut made = Vec::new(alloc);
    'items: while let Some(element) = next_element(&mut elements) {
        let value = make_value(alloc, &element)?;
        made.push(value)?;
    }
    Ok(Some(made))
}

// If several members have one name, the last is used, even if it is left out.
#[cycle(making)]
fn make_object(
    alloc: Global,
    node: &Node<'_, '_>,
    left_out: Option<&str>,
) -> Result<Option<Map<String, Value>>, AllocError>
    ensures { IfOk result (λ made. option_map (λ m. members_view m.entries) made
        ≡ option_map (kept_members (option_map (λ s. s.now) left_out.entry))
        (as_object (data_of node.now))) }
{
    let Some(mut members) = node.members() else {
        return Ok(None);
    };
    let mut made = Map::new(alloc);
    'members: while let Some((name, member)) = next_member(&mut members) {
        if leaves_out(left_out, name, &member) {
            drop(made.remove(name));
        } else {
            let value = make_value(alloc, &member)?;
            drop(made.insert(String::from_str(alloc, name)?, value)?);
        }
    }
    Ok(Some(made))
}

fn leaves_out(left_out: Option<&str>, name: &str, member: &Node<'_, '_>) -> bool
    ensures { result
        ≡ is_left_out (option_map (λ s. s.now) left_out.entry) name.now (data_of member.now) }
{
    match left_out {
        Some(other) => other == name || member.is_fractional(),
        None => member.is_fractional(),
    }
}

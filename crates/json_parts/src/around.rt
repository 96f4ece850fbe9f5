//! The text of an object around one of its members.
ghost use Rattle.std.specs.Prelude.{◌≡◌, ◌++◌, ◌∷◌, [], true, false, OnOk, IfOk, string_bytes};
ghost use Rattle.serde_json.specs.Data.{no_members};
ghost use Rattle.serde_json.specs.View.{members_view};
ghost use Rattle.serde_json.specs.Written.{members_text, members_have_float};
ghost use Rattle.json_parts.specs.Internal.Around.{texts_before, members_after, begins_below, begins_at};
ghost use Rattle.json_parts.specs.Internal.Around.{surrounding, name_text, filled};

use crate::text::{push_name, push_value};
use serde_json::{Map, Value};
use std::alloc::{AllocError, Global};
use std::cmp::Ordering;
use std::marker::Model;

/// The compact text of an object, open at the value of one of its members. Contracts see the text before that
/// value and after it.
#[derive(Debug, Drop)]
pub struct Around {
    before: String,
    after: String,
}

impl Model for Around {
    ghost use Rattle.std.specs.Prelude.{string_bytes};
    ghost use Rattle.json_parts.specs.Internal.Around.{Surrounding};

    ghost Value = { Surrounding };

    ghost view = { λ a. record { before = string_bytes a.before; after = string_bytes a.after } };
}

impl Around {
    /// The JSON of an object that is open between these two strings.
    pub fn new(before: String, after: String) -> Around
        ensures { result ≡ record { before = string_bytes before; after = string_bytes after } }
    {
        Around { before, after }
    }

    /// The text before the open place.
    pub fn before(&self) -> &str
        ensures { result.now ≡ self.now.before }
    {
        self.before.as_str()
    }

    /// The text after the open place.
    pub fn after(&self) -> &str
        ensures { result.now ≡ self.now.after }
    {
        self.after.as_str()
    }

    /// Adds the text of the object, with `value`, the text of a JSON value, at the open place. Returns
    /// `AllocError` if memory runs out; some of the text may then have been added.
    pub fn push_filled(&self, text: &mut String, value: &str) -> Result<(), AllocError>
        ensures added { OnOk result
            (string_bytes text.new ≡ string_bytes text.old ++ filled self.now value.now) }
    {
        text.push_str(self.before.as_str())?;
        text.push_str(value)?;
        text.push_str(self.after.as_str())?;
        Ok(())
    }
}

/// Whether the first member has a name below this one.
fn is_first_below(members: &Map<String, Value>, name: &str) -> bool
    ensures { result ≡ begins_below name.now (members_view members.now.entries) }
{
    match members.first_key_value() {
        Some((key, _)) => match name.cmp(key.as_str()) {
            Ordering::Greater => true,
            _ => false,
        },
        None => false,
    }
}

/// Whether the first member has this name.
fn is_first(members: &Map<String, Value>, name: &str) -> bool
    ensures { result ≡ begins_at name.now (members_view members.now.entries) }
{
    match members.first_key_value() {
        Some((key, _)) => match name.cmp(key.as_str()) {
            Ordering::Equal => true,
            _ => false,
        },
        None => false,
    }
}

/// Removes the members with names below this one, and writes each of them as JSON, followed by a comma.
fn push_before(
    alloc: Global,
    text: &mut String,
    members: &mut Map<String, Value>,
    name: &str,
) -> Result<(), AllocError>
    requires whole { members_have_float (members_view members.old.entries) ≡ false }
    ensures added { OnOk result (string_bytes text.new
        ≡ string_bytes text.old ++ texts_before name.now (members_view members.old.entries)) }
    ensures left { OnOk result (members_after name.now (members_view members.new.entries)
        ≡ members_after name.now (members_view members.old.entries)) }
    ensures above { OnOk result (begins_below name.now (members_view members.new.entries) ≡ false) }
    ensures whole { OnOk result (members_have_float (members_view members.new.entries) ≡ false) }
{
    while is_first_below(members, name) {
        let Some((key, value)) = members.pop_first() else {
            unreachable!()
        };
        push_name(alloc, text, key)?;
        push_value(alloc, text, &value)?;
        text.push_str(",")?;
    }
    Ok(())
}

/// The text of these members after another one, with the closing bracket.
fn rest_of(alloc: Global, members: Map<String, Value>) -> Result<String, AllocError>
    requires whole { members_have_float (members_view members.entries) ≡ false }
    ensures { IfOk result
        (λ s. string_bytes s ≡ members_text true (members_view members.entries)) }
{
    if members.is_empty() {
        return String::from_str(alloc, "}");
    }
    let mut text = Value::Object(members).to_string(alloc)?;
    text.replace_range(..1, ",")?;
    text.shrink_to_fit();
    Ok(text)
}

/// The compact text of an object with these members, open at the value of the member `name`. No member may hold a
/// number with a fraction. The value at that name is dropped. Returns `AllocError` if memory for it runs out.
pub fn text_around(
    alloc: Global,
    members: Map<String, Value>,
    name: &str,
) -> Result<Around, AllocError>
    requires whole { members_have_float (members_view members.entries) ≡ false }
    ensures { IfOk result
        (λ around. around ≡ surrounding name.now (members_view members.entries)) }
{
    let mut members = members;
    let mut before = String::new(alloc);
    before.push_str("{")?;
    push_before(alloc, &mut before, &mut members, name)?;
    push_name(alloc, &mut before, String::from_str(alloc, name)?)?;
    if is_first(&members, name) {
        let _ = members.pop_first();
    }
    let after = rest_of(alloc, members)?;
    Ok(Around { before, after })
}

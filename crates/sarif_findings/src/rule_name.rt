//! The name of a rule next to its id.
ghost use Rattle.std.specs.Prelude.{◌≡◌, IfOk, option_map, option_and_then, string_bytes};
ghost use Rattle.serde_json.specs.View.{view};
ghost use Rattle.sarif_findings.specs.Located.{rule_id_at, descriptor_at, rule_name_at};
ghost use Rattle.sarif_findings.specs.RuleName as said;
ghost use Rattle.sarif_findings.specs.Internal.Subject.{IsDescribed};

use crate::lookup::{rule_id, text_in};
use crate::shown_text::ShownText;
use crate::subject::Subject;
use sarif_model::Text;
use serde_json::Value;
use std::alloc::{AllocError, Global};

/// The maximum number of characters of a shown name.
const MOST_OF_NAME: u32 = 100;

/// Returns a string, unless it is empty or the id of the rule.
fn unless_id<'a>(id: &str, text: Option<&'a str>) -> Option<&'a str>
    ensures { option_map (λ s. s.now) result
        ≡ option_and_then (said.unless_id id.now) (option_map (λ s. s.now) text.entry) }
{
    let text = text?;
    if text.is_empty() || text == id {
        None
    } else {
        Some(text)
    }
}

/// Returns `shortDescription.text` of a descriptor.
fn short_description(descriptor: &Value) -> Option<&str>
    ensures { option_map (λ s. s.now) result ≡ said.short_description (view descriptor.now) }
{
    text_in(descriptor.get("shortDescription")?, "text")
}

/// Returns the first of `name` and `shortDescription.text` of the descriptor of the rule with this id that isn't empty
/// and isn't the id.
fn name_in<'a>(id: &str, descriptor: &'a Value) -> Option<&'a str>
    ensures { option_map (λ s. s.now) result ≡ said.name_in id.now (view descriptor.now) }
{
    match unless_id(id, text_in(descriptor, "name")) {
        Some(name) => Some(name),
        None => unless_id(id, short_description(descriptor)),
    }
}

/// Returns the name of the rule of a result.
fn rule_name<'a>(subject: &Subject<'a>) -> Option<&'a str>
    requires { IsDescribed subject.now }
    ensures { option_map (λ s. s.now) result ≡ option_and_then
        (said.name_in (rule_id_at (view subject.now.run.now) subject.now.told.now.rule))
        (descriptor_at (view subject.now.run.now) subject.now.told.now.rule) }
{
    let id = rule_id(subject);
    name_in(id, subject.descriptor?)
}

/// Returns a name as it is shown.
fn shown_name(alloc: Global, name: &str) -> Result<Text, AllocError>
    ensures { IfOk result (λ shown. shown ≡ said.shown_name name.now) }
{
    let mut so_far = ShownText::with_room(alloc, MOST_OF_NAME)?;
    so_far.push_str(name)?;
    Text::from_string(so_far.finish())
}

/// Returns the name of the rule of a result as it is shown, if the rule has a name besides its id. Returns `AllocError`
/// if memory runs out.
pub(crate) fn shown_rule_name(
    alloc: Global,
    subject: &Subject<'_>,
) -> Result<Option<Text>, AllocError>
    requires { IsDescribed subject.now }
    ensures { IfOk result (λ name. name
        ≡ rule_name_at (view subject.now.run.now) subject.now.told.now.rule) }
{
    match rule_name(subject) {
        Some(name) => Ok(Some(shown_name(alloc, name)?)),
        None => Ok(None),
    }
}

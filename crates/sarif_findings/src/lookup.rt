//! What a result of a merged log names: its rule, and artifacts of its run. A member of the wrong type is treated
//! as missing.
ghost use Rattle.std.specs.Prelude.{◌≡◌, map, option_map, option_and_then};
ghost use Rattle.serde_json.specs.View.{view};
ghost use Rattle.sarif_findings.specs.Located as located;
ghost use Rattle.sarif_findings.specs.Lookup as said;
ghost use Rattle.sarif_findings.specs.Internal.Subject.{IsDescribed};
ghost use Rattle.sarif_model.specs.Members.{text_in};

use crate::subject::Subject;
use sarif_model::RuleReference;
use serde_json::Value;

/// The string `name` of an object.
pub(crate) fn text_in<'a>(value: &'a Value, name: &str) -> Option<&'a str>
    ensures { option_map (λ s. s.now) result ≡ text_in name.now (view value.now) }
{
    value.get(name)?.as_str()
}

/// The integer `name` of an object, which is at least 0.
pub(crate) fn number_in(value: &Value, name: &str) -> Option<u64>
    ensures { result ≡ said.number_in name.now (view value.now) }
{
    value.get(name)?.as_u64()
}

/// Returns the elements of the array `name` of an object. Anything else has none.
#[tactic(auto, using(sarif_model::proofs::Elements::elements_items_view))]
pub fn elements_in<'a>(value: &'a Value, name: &str) -> &'a [Value]
    ensures { map view result.now ≡ said.elements_in name.now (view value.now) }
{
    match value.get(name).and_then(Value::as_array) {
        Some(items) => items.as_slice(),
        None => &[],
    }
}

/// The element `index` of the array `name` of an object.
fn element_at<'a>(value: &'a Value, name: &str, index: u64) -> Option<&'a Value>
    ensures { option_map (λ v. view v.now) result
        ≡ said.element_at name.now (view value.now) index }
{
    elements_in(value, name).get(index as usize)
}

/// Returns the driver of a run's tool (SARIF 2.1.0, "driver property").
pub fn driver_of(run: &Value) -> Option<&Value>
    ensures { option_map (λ v. view v.now) result ≡ said.driver_of (view run.now) }
{
    run.get("tool")?.get("driver")
}

/// An extension of a run's tool.
fn extension_at(run: &Value, index: u64) -> Option<&Value>
    ensures { option_map (λ v. view v.now) result ≡ said.extension_at (view run.now) index }
{
    element_at(run.get("tool")?, "extensions", index)
}

/// The tool component that a result's rule is looked up in.
pub(crate) fn component_of<'a>(run: &'a Value, rule: &RuleReference<'_>) -> Option<&'a Value>
    ensures { option_map (λ v. view v.now) result
        ≡ located.component_at (view run.now) rule.now }
{
    match rule.extension {
        None => driver_of(run),
        Some(index) => extension_at(run, index),
    }
}

/// The id of the descriptor of a result.
fn descriptor_id<'a>(subject: &Subject<'a>) -> Option<&'a str>
    requires { IsDescribed subject.now }
    ensures { option_map (λ s. s.now) result
        ≡ located.descriptor_id_at (view subject.now.run.now) subject.now.told.now.rule }
{
    text_in(subject.descriptor?, "id")
}

/// The result's own rule id, otherwise the id of its descriptor, otherwise the empty string.
pub(crate) fn rule_id<'a>(subject: &Subject<'a>) -> &'a str
    requires { IsDescribed subject.now }
    ensures { result.now
        ≡ located.rule_id_at (view subject.now.run.now) subject.now.told.now.rule }
{
    match subject.told.rule.id {
        Some(id) => id,
        None => descriptor_id(subject).unwrap_or(""),
    }
}

/// The address of a page on the rule.
pub(crate) fn help_uri<'a>(subject: &Subject<'a>) -> Option<&'a str>
    requires { IsDescribed subject.now }
    ensures { option_map (λ s. s.now) result
        ≡ located.help_uri_at (view subject.now.run.now) subject.now.told.now.rule }
{
    text_in(subject.descriptor?, "helpUri")
}

//! Reading the members of an object by type. A null member is treated as missing; `wrong` is the error for a
//! member of another type.
ghost use Rattle.std.specs.Prelude.{◌≡◌, map, option_map, option_and_then};
ghost use Rattle.sarif_model.specs.Members.{result_map};
ghost use Rattle.serde_json.specs.View.{view};
ghost use Rattle.sarif_model.specs.Members as said;

use serde_json::Value;

/// Returns the member `name` of an object, if it is there and not null. A value that is not an object has no
/// members.
pub fn member_at<'a>(value: &'a Value, name: &str) -> Option<&'a Value>
    ensures { option_map (λ v. view v.now) result ≡ said.member_at name.now (view value.now) }
{
    match value.get(name) {
        Some(Value::Null) | None => None,
        Some(member) => Some(member),
    }
}

/// Returns the string `name` of an object; `None` if the member is missing or null, or if this is not an object.
/// Returns `wrong` if the member is not a string.
pub fn text_at<'a, E: Drop>(value: &'a Value, name: &str, wrong: E) -> Result<Option<&'a str>, E>
    ensures { result_map (option_map (λ s. s.now)) result
        ≡ said.text_at wrong name.now (view value.now) }
{
    match member_at(value, name) {
        None => Ok(None),
        Some(member) => match member.as_str() {
            Some(text) => Ok(Some(text)),
            None => Err(wrong),
        },
    }
}

/// Returns the object `name` of an object; `None` if the member is missing or null, or if this is not an object.
/// Returns `wrong` if the member is not an object.
pub fn object_at<'a, E: Drop>(
    value: &'a Value,
    name: &str,
    wrong: E,
) -> Result<Option<&'a Value>, E>
    ensures { result_map (option_map (λ v. view v.now)) result
        ≡ said.object_at wrong name.now (view value.now) }
{
    match member_at(value, name) {
        None => Ok(None),
        Some(member) => {
            if member.is_object() {
                Ok(Some(member))
            } else {
                Err(wrong)
            }
        }
    }
}

/// Returns the elements of the array `name` of an object; none if the member is missing or null. Returns `wrong`
/// if the member is not an array.
#[tactic(auto, using(crate::proofs::Elements::elements_items_view))]
pub fn elements_at<'a, E: Drop>(value: &'a Value, name: &str, wrong: E) -> Result<&'a [Value], E>
    ensures { result_map (λ vs. map view vs.now) result
        ≡ said.elements_at wrong name.now (view value.now) }
{
    match member_at(value, name) {
        None => Ok(&[]),
        Some(member) => match member.as_array() {
            Some(items) => Ok(items.as_slice()),
            None => Err(wrong),
        },
    }
}

/// Whether all of these are objects.
fn are_objects(values: &[Value]) -> bool
    ensures { result ≡ said.are_objects (map view values.now) }
{
    for value in values {
        if !value.is_object() {
            return false;
        }
    }
    true
}

/// Returns the elements of the array of objects `name` of an object; none if the member is missing or null.
/// Returns `wrong` if the member is not an array, or an element is not an object.
#[tactic(auto, using(crate::proofs::Elements::elements_items_view))]
pub fn objects_at<'a, E: Drop>(value: &'a Value, name: &str, wrong: E) -> Result<&'a [Value], E>
    ensures { result_map (λ vs. map view vs.now) result
        ≡ said.objects_at wrong name.now (view value.now) }
{
    match member_at(value, name) {
        None => Ok(&[]),
        Some(member) => match member.as_array() {
            Some(items) => {
                if are_objects(items.as_slice()) {
                    Ok(items.as_slice())
                } else {
                    Err(wrong)
                }
            }
            None => Err(wrong),
        },
    }
}

/// Returns the index `name` of an object: an integer from 0 to 2^32 - 1; `None` if the member is missing, null or
/// -1. Returns `wrong` if it is anything else.
pub fn index_at<E: Drop>(value: &Value, name: &str, wrong: E) -> Result<Option<u32>, E>
    ensures { result ≡ said.index_at wrong name.now (view value.now) }
{
    match member_at(value, name) {
        None => Ok(None),
        Some(member) => match member.as_i64() {
            Some(-1) => Ok(None),
            Some(number) => match u32::try_from(number) {
                Ok(index) => Ok(Some(index)),
                Err(_) => Err(wrong),
            },
            None => Err(wrong),
        },
    }
}

/// The member `name` of an object that may be absent itself; `None` where the object or the member
/// is absent, or the member is null.
pub fn member_within<'a>(value: Option<&'a Value>, name: &str) -> Option<&'a Value>
    ensures { option_map (λ v. view v.now) result
        ≡ option_and_then (said.member_at name.now) (option_map (λ v. view v.now) value.entry) }
{
    match value {
        None => None,
        Some(value) => member_at(value, name),
    }
}

/// Returns the string `name` of an object that may itself be missing; `None` if the object or the member is
/// missing, or the member is null. Returns `wrong` if the member is not a string.
pub fn text_within<'a, E: Drop>(
    value: Option<&'a Value>,
    name: &str,
    wrong: E,
) -> Result<Option<&'a str>, E>
    ensures { result_map (option_map (λ s. s.now)) result
        ≡ said.if_there (said.text_at wrong name.now) (option_map (λ v. view v.now) value.entry) }
{
    match value {
        None => Ok(None),
        Some(value) => text_at(value, name, wrong),
    }
}

/// Returns the object `name` of an object that may itself be missing; `None` if the outer object or the member is
/// missing, or the member is null. Returns `wrong` if the member is not an object.
pub fn object_within<'a, E: Drop>(
    value: Option<&'a Value>,
    name: &str,
    wrong: E,
) -> Result<Option<&'a Value>, E>
    ensures { result_map (option_map (λ v. view v.now)) result
        ≡ said.if_there (said.object_at wrong name.now) (option_map (λ v. view v.now) value.entry) }
{
    match value {
        None => Ok(None),
        Some(value) => object_at(value, name, wrong),
    }
}

/// Returns the index `name` of an object that may itself be missing, an integer from 0 to 2^32 - 1; `None` if the
/// object or the member is missing, or the member is null or -1. Returns `wrong` if the member is anything else.
pub fn index_within<E: Drop>(value: Option<&Value>, name: &str, wrong: E) -> Result<Option<u32>, E>
    ensures { result
        ≡ said.if_there (said.index_at wrong name.now) (option_map (λ v. view v.now) value.entry) }
{
    match value {
        None => Ok(None),
        Some(value) => index_at(value, name, wrong),
    }
}

/// Returns the first of these values; `None` if there are none. Returns `wrong` if it is not an object, even if it
/// is null.
pub fn first_object<'a, E: Drop>(values: &'a [Value], wrong: E) -> Result<Option<&'a Value>, E>
    ensures { result_map (option_map (λ v. view v.now)) result
        ≡ said.if_object wrong (said.first_of (map view values.now)) }
{
    match values {
        [] => Ok(None),
        [first, ..] => {
            if first.is_object() {
                Ok(Some(first))
            } else {
                Err(wrong)
            }
        }
    }
}

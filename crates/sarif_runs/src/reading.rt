//! Reading members of an object that may itself be absent.
ghost use Rattle.std.specs.Prelude.{◌≡◌, map, option_map};
ghost use Rattle.sarif_model.specs.Members as said;
ghost use Rattle.serde_json.specs.View.{view};
ghost use Rattle.sarif_runs.specs.Reading as told;

use sarif_model::members::{member_at, objects_at};
use sarif_model::{Fault, Level};
use serde_json::Value;

/// The elements of the array of objects `name`, in an object that may be absent.
pub(crate) fn objects_within<'a>(
    object: Option<&'a Value>,
    name: &str,
    wrong: Fault,
) -> Result<&'a [Value], Fault>
    ensures { said.result_map (λ vs. map view vs.now) result
        ≡ told.list_if_there (said.objects_at wrong name.now)
        (option_map (λ v. view v.now) object.entry) }
{
    match object {
        Some(object) => objects_at(object, name, wrong),
        None => Ok(&[]),
    }
}

/// The `level` of an object that may be missing: one of the four strings, otherwise `BadLevel`.
pub(crate) fn level_within(object: Option<&Value>) -> Result<Option<Level>, Fault>
    ensures { result
        ≡ said.if_there told.level_at (option_map (λ v. view v.now) object.entry) }
{
    match object {
        Some(object) => level_at(object),
        None => Ok(None),
    }
}

fn level_at(object: &Value) -> Result<Option<Level>, Fault>
    ensures { result ≡ told.level_at (view object.now) }
{
    match member_at(object, "level") {
        None => Ok(None),
        Some(member) => match member.as_str().and_then(Level::from_name) {
            Some(level) => Ok(Some(level)),
            None => Err(Fault::BadLevel),
        },
    }
}

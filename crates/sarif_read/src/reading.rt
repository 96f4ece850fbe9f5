//! The form of a run.
ghost use Rattle.std.specs.Prelude.{◌≡◌};
ghost use Rattle.serde_json.specs.View.{view};
ghost use Rattle.sarif_read.specs.Reading as said;

use sarif_model::members::member_at;
use sarif_model::{Fault, driver_name};
use serde_json::Value;

/// The run is an object with a tool that has a driver that has a name; otherwise `BadRun`.
pub(crate) fn check_tool(run: &Value) -> Result<(), Fault>
    ensures { result ≡ said.check_tool (view run.now) }
{
    match driver_name(run) {
        Some(_) => Ok(()),
        None => Err(Fault::BadRun),
    }
}

/// Whether this is an object with no member.
fn is_empty_object(value: &Value) -> bool
    ensures { result ≡ said.is_empty_object (view value.now) }
{
    match value.as_object() {
        Some(members) => members.is_empty(),
        None => false,
    }
}

/// Whether this is null or an array with no element.
fn is_null_or_empty(value: &Value) -> bool
    ensures { result ≡ said.is_null_or_empty (view value.now) }
{
    match value {
        Value::Null => true,
        Value::Array(items) => items.is_empty(),
        _ => false,
    }
}

/// Whether no external property file is named for this part of a run.
fn names_none_for(part: &str, files: &Value) -> bool
    ensures { result ≡ said.names_none_for part.now (view files.now) }
{
    match files.get(part) {
        Some(named) => is_null_or_empty(named),
        None => true,
    }
}

/// Whether no external property file is named for a part of a run that a merge reads.
fn names_nothing_read(files: &Value) -> bool
    ensures { result ≡ said.names_nothing_read (view files.now) }
{
    files.is_object()
        && names_none_for("artifacts", files)
        && names_none_for("driver", files)
        && names_none_for("extensions", files)
        && names_none_for("invocations", files)
        && names_none_for("results", files)
}

/// Whether these external property files may be named.
fn may_be_named(allow_external: bool, files: &Value) -> bool
    ensures { result ≡ said.may_be_named allow_external (view files.now) }
{
    if allow_external {
        names_nothing_read(files)
    } else {
        is_empty_object(files)
    }
}

/// The run names no external property files or, if these are allowed, none that holds what is read; otherwise
/// `ExternalProperties`.
pub(crate) fn check_external(allow_external: bool, run: &Value) -> Result<(), Fault>
    ensures { result ≡ said.check_external allow_external (view run.now) }
{
    match member_at(run, "externalPropertyFileReferences") {
        Some(files) => {
            if may_be_named(allow_external, files) {
                Ok(())
            } else {
                Err(Fault::ExternalProperties)
            }
        }
        None => Ok(()),
    }
}

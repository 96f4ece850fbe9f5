//! The entry that accepts a result.
ghost use Rattle.std.specs.Prelude.{◌≡◌, codes, option_map, IfOk, OnOk};
ghost use Rattle.serde_json.specs.Data.{number, unsigned, string};
ghost use Rattle.serde_json.specs.View.{view, members_view};
ghost use Rattle.sarif_model.specs.Written.{with_value};
ghost use Rattle.sarif_accept.specs.Entry as said;

use crate::asked::asked_members;
use sarif_model::{Record, Text};
use sarif_options::Renewal;
use serde_json::{Map, Value, put};
use std::alloc::{AllocError, Global};

/// Sets the member `name` to the string, if there is one.
fn put_text(
    alloc: Global,
    members: &mut Map<String, Value>,
    name: &str,
    text: Option<&Text>,
) -> Result<(), AllocError>
    ensures { OnOk result (members_view members.new.entries
        ≡ with_value name.now (option_map string (option_map (λ t. t.now) text.entry))
        (members_view members.old.entries)) }
{
    if let Some(text) = text {
        let value = Value::try_from_str(alloc, text.as_str())?;
        put(members, alloc, name, value)?;
    }
    Ok(())
}

/// Sets the member `expires`, if there is an expiry date.
fn put_day(
    alloc: Global,
    members: &mut Map<String, Value>,
    day: Option<u32>,
) -> Result<(), AllocError>
    ensures { OnOk result (members_view members.new.entries
        ≡ with_value (codes "expires") (option_map (λ n. number (unsigned n)) day)
        (members_view members.old.entries)) }
{
    if let Some(day) = day {
        put(members, alloc, "expires", Value::from(day))?;
    }
    Ok(())
}

/// Returns the entry that accepts a result: it names what a baseline would match with the finding in the same file, and
/// has the justification and the expiry date of the renewal, if there are. Returns `AllocError` if memory for it
/// runs out.
pub fn entry_for(alloc: Global, record: &Record, renewal: &Renewal) -> Result<Value, AllocError>
    ensures { IfOk result (λ v. view v
        ≡ said.entry_for «record».now renewal.now.reason renewal.now.until) }
{
    let mut members = asked_members(alloc, record)?;
    put_text(
        alloc,
        &mut members,
        "justification",
        renewal.reason.as_ref(),
    )?;
    put_day(alloc, &mut members, renewal.until)?;
    Ok(Value::Object(members))
}

//! Strings as JSON.
ghost use Rattle.std.specs.Prelude.{◌≡◌, ◌++◌, true, string_bytes, OnOk};
ghost use Rattle.std.specs.List.{list_all};
ghost use Rattle.sarif_reports.specs.GitlabParts.{stands_in_string, quoted_text};

use json_parts::push_value;
use serde_json::Value;
use std::alloc::{AllocError, Global};

/// Returns whether a byte is written unchanged in a JSON string.
fn stands(byte: u8) -> bool
    ensures { result ≡ stands_in_string byte }
{
    byte >= b' ' && !(byte == b'"' || byte == b'\\')
}

/// Returns whether each of these bytes is written unchanged in a JSON string. It doesn't end early, so that many bytes
/// are compared at a time.
fn all_stand(bytes: &[u8]) -> bool
    ensures { result ≡ list_all stands_in_string bytes.now }
{
    let mut all = true;
    for byte in bytes {
        all &= stands(*byte);
    }
    all
}

/// Adds a string in which nothing is escaped.
fn push_whole(text: &mut String, plain: &str) -> Result<(), AllocError>
    requires { list_all stands_in_string plain.now ≡ true }
    ensures { OnOk result (string_bytes text.new ≡ string_bytes text.old ++ quoted_text plain.now) }
{
    text.push_str("\"")?;
    text.push_str(plain)?;
    text.push_str("\"")?;
    Ok(())
}

/// Adds a string as JSON.
#[tactic(auto, unfolding(crate::specs::GitlabParts::quoted_text))]
pub(crate) fn push_quoted(alloc: Global, text: &mut String, plain: &str) -> Result<(), AllocError>
    ensures { OnOk result (string_bytes text.new ≡ string_bytes text.old ++ quoted_text plain.now) }
{
    if all_stand(plain.as_bytes()) {
        return push_whole(text, plain);
    }
    let value = Value::String(String::from_str(alloc, plain)?);
    push_value(alloc, text, &value)?;
    Ok(())
}

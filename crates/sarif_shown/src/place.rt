//! What a report says about a result.
ghost use Rattle.std.specs.Prelude.{◌≡◌, ◌++◌, OnOk, string_bytes};
ghost use Rattle.sarif_findings.specs.Finding as said;

use itoa::Buffer;
use sarif_findings::Finding;
use std::alloc::AllocError;

/// Returns whether the first character that is not a space is a colon.
fn begins_with_colon(path: &str) -> bool
    ensures { result ≡ said.begins_with_colon path.now }
{
    for byte in path.as_bytes() {
        if *byte != b' ' {
            return *byte == b':';
        }
    }
    false
}

/// Adds a colon and the number, if there is one. Returns `AllocError` if memory runs out.
pub fn push_numbered(text: &mut String, number: Option<u32>) -> Result<(), AllocError>
    ensures { OnOk result (string_bytes text.new ≡ string_bytes text.old ++ said.numbered number) }
{
    if let Some(number) = number {
        let mut digits = Buffer::new();
        text.push_str(":")?;
        text.push_str(digits.format(number))?;
    }
    Ok(())
}

/// Adds a path, which never begins with a colon. Returns `AllocError` if memory runs out.
pub fn push_path(text: &mut String, path: &str) -> Result<(), AllocError>
    ensures { OnOk result
        (string_bytes text.new ≡ string_bytes text.old ++ said.place_path path.now) }
{
    if begins_with_colon(path) {
        text.push_str("./")?;
    }
    text.push_str(path)?;
    Ok(())
}

/// Adds the place of the result: its path, line and column, as far as they are known, or `-`. Returns `AllocError`
/// if memory runs out.
pub fn push_place(text: &mut String, finding: &Finding) -> Result<(), AllocError>
    ensures { OnOk result
        (string_bytes text.new ≡ string_bytes text.old ++ said.spot_text finding.now) }
{
    match &finding.path {
        None => text.push_str("-")?,
        Some(path) => {
            push_path(text, path.as_str())?;
            push_numbered(text, finding.line)?;
            push_numbered(text, finding.column)?;
        }
    }
    Ok(())
}

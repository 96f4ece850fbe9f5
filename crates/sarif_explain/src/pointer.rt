//! JSON pointers (RFC 6901), step by step.
ghost use Rattle.std.specs.Prelude.{◌≡◌, ◌++◌, OnOk, string_bytes};
ghost use Rattle.sarif_explain.specs.Internal.Pointer as said;

use std::alloc::{AllocError, Global};

/// Adds a character of a member's name.
fn push_char(pointer: &mut String, c: char) -> Result<(), AllocError>
    ensures { OnOk result
        (string_bytes pointer.new ≡ string_bytes pointer.old ++ said.name_char c) }
{
    match c {
        '~' => pointer.push_str("~0")?,
        '/' => pointer.push_str("~1")?,
        _ => pointer.push(c)?,
    }
    Ok(())
}

/// Adds a member's name.
fn push_chars(pointer: &mut String, name: &str) -> Result<(), AllocError>
    ensures { OnOk result
        (string_bytes pointer.new ≡ string_bytes pointer.old ++ said.escaped name.now) }
{
    for c in name.chars() {
        push_char(pointer, c)?;
    }
    Ok(())
}

/// Adds the step to the member of that name.
pub(crate) fn push_name(pointer: &mut String, name: &str) -> Result<(), AllocError>
    ensures { OnOk result
        (string_bytes pointer.new ≡ string_bytes pointer.old ++ said.step_to_member name.now) }
{
    pointer.push_str("/")?;
    push_chars(pointer, name)?;
    Ok(())
}

/// Adds the step to the element of that index.
pub(crate) fn push_index(
    alloc: Global,
    pointer: &mut String,
    index: usize,
) -> Result<(), AllocError>
    ensures { OnOk result
        (string_bytes pointer.new ≡ string_bytes pointer.old ++ said.step_to_element index) }
{
    let step = format!(in alloc; "/{index}")?;
    pointer.push_str(step.as_str())?;
    Ok(())
}

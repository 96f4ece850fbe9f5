//! The lines of an explanation.
ghost use Rattle.std.specs.Prelude.{◌≡◌, ◌++◌, IfOk, OnOk, chars, decimal, string_bytes};
ghost use Rattle.sarif_explain.specs.Internal.Lines as said;

use sarif_findings::show_text;
use std::alloc::{AllocError, Global};

/// The maximum number of characters of a shown value.
const MOST_OF_A_VALUE: u32 = 80;

/// Adds a line: two spaces, the name, a colon, a space, the shown string, a newline.
pub(crate) fn push_line(
    alloc: Global,
    lines: &mut String,
    name: &str,
    text: &str,
) -> Result<(), AllocError>
    ensures { OnOk result
        (string_bytes lines.new ≡ string_bytes lines.old ++ said.line_of name.now text.now) }
{
    let shown_text = show_text(alloc, text)?;
    lines.push_str("  ")?;
    lines.push_str(name)?;
    lines.push_str(": ")?;
    lines.push_str(shown_text.as_str())?;
    lines.push_str("\n")?;
    Ok(())
}

/// Adds the file, if it has a name.
pub(crate) fn push_file(alloc: Global, lines: &mut String, file: &str) -> Result<(), AllocError>
    ensures { OnOk result
        (string_bytes lines.new ≡ string_bytes lines.old ++ said.file_line file.now) }
{
    if file.is_empty() {
        return Ok(());
    }
    push_line(alloc, lines, "file", file)
}

/// Adds a line with a number.
pub(crate) fn push_number(
    alloc: Global,
    lines: &mut String,
    name: &str,
    number: usize,
) -> Result<(), AllocError>
    ensures { OnOk result
        (string_bytes lines.new
        ≡ string_bytes lines.old ++ said.line_of name.now (decimal number)) }
{
    let text = format!(in alloc; "{number}")?;
    push_line(alloc, lines, name, text.as_str())
}

/// Returns the first 80 characters of a string, then `...` if there are more.
pub(crate) fn shorten(alloc: Global, text: &str) -> Result<String, AllocError>
    ensures { IfOk result
        (λ s. string_bytes s ≡ said.shortened said.most_of_a_value (chars text.now)) }
{
    let mut kept = String::new(alloc);
    let mut room = MOST_OF_A_VALUE;
    for c in text.chars() {
        if room == 0 {
            kept.push_str("...")?;
            return Ok(kept);
        }
        kept.push(c)?;
        room -= 1;
    }
    Ok(kept)
}

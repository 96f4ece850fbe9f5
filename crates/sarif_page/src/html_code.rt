//! The code of a row.
ghost use Rattle.std.specs.Prelude.{◌≡◌, ◌++◌, flat_map, OnOk, string_bytes};
ghost use Rattle.std.specs.List.{enumerate_from};
ghost use Rattle.sarif_page.specs.HtmlCode as said;

use crate::breaks::push_escaped;
use sarif_findings::{Code, Finding};
use sarif_model::Text;
use std::alloc::{AllocError, Global};

/// Adds a character of code.
fn push_code_char(text: &mut String, c: char) -> Result<(), AllocError>
    ensures { OnOk result (string_bytes text.new ≡ string_bytes text.old ++ said.code_char c) }
{
    match c {
        '#' => text.push_str("&#35;")?,
        _ => push_escaped(text, c)?,
    }
    Ok(())
}

/// Adds a string of code.
#[tactic(auto, unfolding(crate::specs::HtmlCode::code_text))]
fn push_code_text(text: &mut String, plain: &str) -> Result<(), AllocError>
    ensures { OnOk result
        (string_bytes text.new ≡ string_bytes text.old ++ said.code_text plain.now) }
{
    for c in plain.chars() {
        push_code_char(text, c)?;
    }
    Ok(())
}

/// Adds a string of code, marked if it is the hit line.
fn push_marked(text: &mut String, is_marked: bool, plain: &str) -> Result<(), AllocError>
    ensures { OnOk result (string_bytes text.new
        ≡ string_bytes text.old ++ said.marked_if is_marked plain.now) }
{
    if !is_marked {
        return push_code_text(text, plain);
    }
    text.push_str("<mark>")?;
    push_code_text(text, plain)?;
    text.push_str("</mark>")?;
    Ok(())
}

/// What is between a line with this index and the line before it.
fn newline_before(index: usize) -> &'static str
    ensures { result.now ≡ said.newline_before index }
{
    if index == 0 { "" } else { "\n" }
}

/// Adds a line with this index.
#[tactic(auto, unfolding(crate::specs::HtmlCode::code_line))]
fn push_code_line(
    alloc: Global,
    text: &mut String,
    code: &Code,
    index: usize,
    line: &str,
) -> Result<(), AllocError>
    ensures { OnOk result (string_bytes text.new
        ≡ string_bytes text.old ++ said.code_line code.now (index, line.now)) }
{
    let mut row = String::new(alloc);
    code.push_row(&mut row, index, line)?;
    text.push_str(newline_before(index))?;
    push_marked(text, code.has_mark(index), row.as_str())?;
    Ok(())
}

/// Adds these lines of the code.
fn push_code_lines(
    alloc: Global,
    text: &mut String,
    code: &Code,
    lines: &[Text],
) -> Result<(), AllocError>
    ensures { OnOk result (string_bytes text.new ≡ string_bytes text.old
        ++ flat_map (said.code_line code.now) (enumerate_from 0 lines.now)) }
{
    for (index, line) in lines.iter().enumerate() {
        push_code_line(alloc, text, code, index, line.as_str())?;
    }
    Ok(())
}

/// Adds the code.
#[tactic(auto, unfolding(crate::specs::HtmlCode::code_html))]
fn push_code_html(alloc: Global, text: &mut String, code: &Code) -> Result<(), AllocError>
    ensures { OnOk result
        (string_bytes text.new ≡ string_bytes text.old ++ said.code_html code.now) }
{
    text.push_str("<pre><code>")?;
    push_code_lines(alloc, text, code, code.lines.as_slice())?;
    text.push_str("</code></pre>")?;
    Ok(())
}

/// Adds the code of a result, if it has any.
pub(crate) fn push_code(
    alloc: Global,
    text: &mut String,
    finding: &Finding,
) -> Result<(), AllocError>
    ensures { OnOk result (string_bytes text.new
        ≡ string_bytes text.old ++ said.code_cell finding.now.code) }
{
    if let Some(code) = &finding.code {
        push_code_html(alloc, text, code)?;
    }
    Ok(())
}

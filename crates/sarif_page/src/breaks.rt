//! Paths and rules, which a line may break between their parts.
ghost use Rattle.std.specs.Prelude.{◌≡◌, ◌++◌, OnOk, string_bytes};
ghost use Rattle.sarif_shown.specs.Escaped.{page_char};
ghost use Rattle.sarif_page.specs.HtmlBreaks as said;

use std::alloc::AllocError;

/// Adds a character, escaped.
pub(crate) fn push_escaped(text: &mut String, c: char) -> Result<(), AllocError>
    ensures { OnOk result (string_bytes text.new ≡ string_bytes text.old ++ page_char c) }
{
    match c {
        '&' => text.push_str("&amp;")?,
        '<' => text.push_str("&lt;")?,
        '>' => text.push_str("&gt;")?,
        '"' => text.push_str("&quot;")?,
        '\'' => text.push_str("&#39;")?,
        _ => text.push(c)?,
    }
    Ok(())
}

/// Whether a part ends with this character.
fn ends_part(c: char) -> bool
    ensures { result ≡ said.ends_part c }
{
    matches!(c, '-' | '.' | '_' | '/' | ':')
}

fn is_small(c: char) -> bool
    ensures { result ≡ said.is_small c }
{
    matches!(c, 'a'..='z')
}

fn is_capital(c: char) -> bool
    ensures { result ≡ said.is_capital c }
{
    matches!(c, 'A'..='Z')
}

fn break_if(needed: bool) -> &'static str
    ensures { result.now ≡ said.break_if needed }
{
    if needed { "<wbr>" } else { "" }
}

/// Adds a character, with the breaks around it.
fn push_broken_char(text: &mut String, small: bool, c: char) -> Result<(), AllocError>
    ensures { OnOk result
        (string_bytes text.new ≡ string_bytes text.old ++ said.broken_char small c) }
{
    text.push_str(break_if(small && is_capital(c)))?;
    push_escaped(text, c)?;
    text.push_str(break_if(ends_part(c)))?;
    Ok(())
}

/// Adds a path or a rule, escaped, with a break after each part.
#[tactic(auto, unfolding(crate::specs::HtmlBreaks::broken))]
pub(crate) fn push_broken(text: &mut String, plain: &str) -> Result<(), AllocError>
    ensures { OnOk result
        (string_bytes text.new ≡ string_bytes text.old ++ said.broken plain.now) }
{
    let mut small = false;
    for c in plain.chars() {
        push_broken_char(text, small, c)?;
        small = is_small(c);
    }
    Ok(())
}

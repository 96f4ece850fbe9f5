//! The code of a result, and how reports write it.
ghost use Rattle.std.specs.Prelude.{◌≡◌, ◌≢◌, ℕ, List, ◌∷◌, ◌++◌, MatchOption, OnOk, decimal, find, length, option_map, string_bytes};
ghost use Rattle.sarif_findings.specs.CodeRows as said;

use itoa::Buffer;
use sarif_model::{Sequence, Text};
use std::alloc::AllocError;

/// The code of a result: one to five lines of a snippet of its first location, made safe to show (SARIF 2.1.0,
/// "physicalLocation object", "contextRegion property"; "region object", "snippet property"). Neither the first nor the
/// last of them is empty. See `code_of`.
#[derive(Debug, Drop)]
pub struct Code {
    /// The lines, without the spaces that all of them begin with. A line with more than 120 characters has its first 120
    /// and then `…`.
    pub lines: Sequence<Text>,
    /// The number of the first line, if the lines have numbers: each line after it has the next number.
    pub first_number: Option<u64>,
    /// The index of the hit line in `lines`, if it is one of them. Its number is the line of the finding.
    pub hit_line: Option<usize>,
}

/// Returns whether a line is not empty.
fn is_filled(line: &Text) -> bool
    ensures { result ≡ said.is_filled line.now }
{
    !line.as_str().is_empty()
}

/// Returns the line with that index, if it is there and not empty.
fn filled_line(lines: &[Text], index: Option<usize>) -> Option<&Text>
    ensures { option_map (λ line. line.now) result ≡ said.filled_line lines.now index }
{
    let line = lines.get(index?)?;
    if is_filled(line) { Some(line) } else { None }
}

/// Returns the first of these lines that is not empty.
fn first_filled(lines: &[Text]) -> Option<&Text>
    ensures { option_map (λ line. line.now) result ≡ find said.is_filled lines.now }
{
    for line in lines {
        if is_filled(line) {
            return Some(line);
        }
    }
    None
}

/// Returns what follows the space with which a line begins, or `None` if it does not.
fn after_space(line: &str) -> Option<&str>
    ensures { MatchOption result ((rest : List ℕ) → line.now ≢ 32 ∷ rest)
        (λ rest. line.now ≡ 32 ∷ rest.now) }
{
    line.strip_prefix(' ')
}

/// Returns a line without the spaces that it begins with.
fn without_spaces(line: &str) -> &str
    ensures { result.now ≡ said.without_spaces line.now }
{
    let mut rest = line;
    while let Some(after) = after_space(rest) {
        rest = after;
    }
    rest
}

/// Adds a string, set right in a column of this width.
fn push_right(text: &mut String, width: usize, digits: &str) -> Result<(), AllocError>
    ensures { OnOk result (string_bytes text.new
        ≡ string_bytes text.old ++ said.set_right width digits.now) }
{
    let mut left = width.saturating_sub(digits.len());
    while left > 0 {
        text.push_str(" ")?;
        left -= 1;
    }
    text.push_str(digits)?;
    Ok(())
}

/// Returns how many digits a number has.
fn width_of(number: u128) -> usize
    ensures { result ≡ length (decimal number) }
{
    let mut digits = Buffer::new();
    digits.format(number).len()
}

/// Adds a line after the number of its row: a space and the line, or nothing if it is empty.
fn push_after_number(text: &mut String, line: &str) -> Result<(), AllocError>
    ensures { OnOk result
        (string_bytes text.new ≡ string_bytes text.old ++ said.after_number line.now) }
{
    if !line.is_empty() {
        text.push_str(" ")?;
        text.push_str(line)?;
    }
    Ok(())
}

impl Code {
    /// Returns whether a line with this index is the hit line.
    fn is_hit(&self, index: usize) -> bool
        ensures { result ≡ said.is_hit self.now index }
    {
        match self.hit_line {
            Some(hit) => hit == index,
            None => false,
        }
    }

    /// Returns the number of the first row, if the rows have numbers: those of several lines that have numbers do.
    fn first_shown(&self) -> Option<u64>
        ensures { result ≡ said.first_shown self.now }
    {
        if self.lines.as_slice().len() > 1 {
            self.first_number
        } else {
            None
        }
    }

    /// Returns whether the row with this index has a mark: it is the hit line's, and the rows have numbers.
    pub fn has_mark(&self, index: usize) -> bool
        ensures { result ≡ said.has_mark self.now index }
    {
        self.first_shown().is_some() && self.is_hit(index)
    }

    /// Adds what comes before the line in a row with this number: `>` for the hit line, otherwise a space, a space, the
    /// number, set right in the width of the greatest, and ` |`.
    fn push_number(&self, text: &mut String, first: u64, index: usize) -> Result<(), AllocError>
        ensures { OnOk result (string_bytes text.new
            ≡ string_bytes text.old ++ said.row_number self.now first index) }
    {
        let last = self.lines.as_slice().len().saturating_sub(1);
        let width = width_of(first as u128 + last as u128);
        let mut digits = Buffer::new();
        text.push_str(if self.is_hit(index) { "> " } else { "  " })?;
        push_right(text, width, digits.format(first as u128 + index as u128))?;
        text.push_str(" |")?;
        Ok(())
    }

    /// Adds the row of this line, which has this index among the lines: the line alone if it is the only one or the
    /// lines have no numbers; otherwise a mark, its number, set right in the width of the greatest, ` |`, and if the line
    /// is not empty a space and the line. Returns `AllocError` if memory runs out.
    pub fn push_row(&self, text: &mut String, index: usize, line: &str) -> Result<(), AllocError>
        ensures { OnOk result (string_bytes text.new
            ≡ string_bytes text.old ++ said.row_of self.now index line.now) }
    {
        let Some(first) = self.first_shown() else {
            text.push_str(line)?;
            return Ok(());
        };
        self.push_number(text, first, index)?;
        push_after_number(text, line)?;
        Ok(())
    }

    /// Returns one line of the code, without the spaces that it begins with: the hit line, or if that is missing or
    /// empty the first line that isn't empty.
    pub fn one_line(&self) -> &str
        ensures { result.now ≡ said.one_line self.now }
    {
        let lines = self.lines.as_slice();
        let line = match filled_line(lines, self.hit_line) {
            Some(line) => Some(line),
            None => first_filled(lines),
        };
        match line {
            Some(line) => without_spaces(line.as_str()),
            None => "",
        }
    }
}

//! The lines on what a merge gives for later merges, on copies, and on what happened.
ghost use Rattle.std.specs.Prelude.{◌≡◌, ◌++◌, IfOk, OnOk, string_bytes};
ghost use Rattle.sarif_shown.specs.Sentences.{entries_text, runs_text};
ghost use Rattle.sarif_program.specs.Notes as said;

use sarif_counts::{KnownLog, Life, NewFile};
use sarif_log::Facts;
use sarif_model::Text;
use sarif_request::Request;
use sarif_shown::{count_text, entries_text, runs_text};
use std::alloc::{AllocError, Global};

/// Returns the lines on what is for later merges and on copies. If explanations are requested, lines on what happened follow.
pub(crate) fn lines_with(
    alloc: Global,
    request: &Request,
    facts: &Facts<'_>,
) -> Result<Text, AllocError>
    ensures { IfOk result (λ lines. lines ≡ said.lines_with request.now facts.now) }
{
    let mut lines = lines_of(alloc, facts.life)?;
    lines.push_str(copies_line(alloc, facts.copies)?.as_str())?;
    if request.explain {
        push_happened(alloc, &mut lines, facts)?;
    }
    Text::from_string(lines)
}

/// Returns the line on copies, if copies aren't counted.
fn copies_line(alloc: Global, copies: Option<u64>) -> Result<String, AllocError>
    ensures { IfOk result (λ s. string_bytes s ≡ said.copies_line copies) }
{
    match copies {
        Some(number) => format!(in alloc; "sarif_gate: {number} copies\n"),
        None => Ok(String::new(alloc)),
    }
}

/// Adds a line on runs without results, one on unused entries and one on those of them that are expired, each if there
/// are any.
fn push_happened(alloc: Global, lines: &mut String, facts: &Facts<'_>) -> Result<(), AllocError>
    ensures { OnOk result (string_bytes lines.new ≡ string_bytes lines.old
        ++ said.happened facts.now.without facts.now.unused facts.now.expired) }
{
    lines.push_str(runs_line(alloc, facts.without)?.as_str())?;
    lines.push_str(entries_line(alloc, facts.unused)?.as_str())?;
    lines.push_str(expired_line(alloc, facts.expired)?.as_str())?;
    Ok(())
}

/// Returns the line on runs without results, if there are any.
fn runs_line(alloc: Global, without: u32) -> Result<String, AllocError>
    ensures { IfOk result (λ s. string_bytes s ≡ said.told_if without (runs_text without)) }
{
    if without == 0 {
        return Ok(String::new(alloc));
    }
    let sentence = runs_text(alloc, without)?;
    format!(in alloc; "sarif_gate: {sentence}\n")
}

/// Returns the line on unused entries, if there are any.
fn entries_line(alloc: Global, unused: u32) -> Result<String, AllocError>
    ensures { IfOk result (λ s. string_bytes s ≡ said.told_if unused (entries_text unused)) }
{
    if unused == 0 {
        return Ok(String::new(alloc));
    }
    let sentence = entries_text(alloc, unused)?;
    format!(in alloc; "sarif_gate: {sentence}\n")
}

/// How many entries of the suppression file are expired.
fn expired_text(alloc: Global, number: u32) -> Result<String, AllocError>
    ensures { IfOk result (λ s. string_bytes s ≡ said.expired_text number) }
{
    count_text(
        alloc,
        number as usize,
        " suppression entry has expired.",
        " suppression entries have expired.",
    )
}

/// Returns the line on expired entries, if there are any.
fn expired_line(alloc: Global, expired: u32) -> Result<String, AllocError>
    ensures { IfOk result
        (λ s. string_bytes s ≡ said.told_if expired (said.expired_text expired)) }
{
    if expired == 0 {
        return Ok(String::new(alloc));
    }
    let sentence = expired_text(alloc, expired)?;
    format!(in alloc; "sarif_gate: {sentence}\n")
}

/// Returns a line on the new suppression file and one on the known log, each if there is one.
fn lines_of(alloc: Global, life: &Life) -> Result<String, AllocError>
    ensures { IfOk result (λ lines. string_bytes lines ≡ said.lines_of life.now) }
{
    let mut lines = String::new(alloc);
    if let Some(file) = &life.suppressions {
        lines.push_str(file_line(alloc, file)?.as_str())?;
    }
    if let Some(log) = &life.known {
        lines.push_str(log_line(alloc, log)?.as_str())?;
    }
    Ok(lines)
}

/// Returns how many hits are alike, if not all hits are chosen, and how many stay.
fn left_text(alloc: Global, alike: Option<u32>, stay: u32) -> Result<String, AllocError>
    ensures { IfOk result (λ s. string_bytes s ≡ said.left_text alike stay) }
{
    match alike {
        Some(number) => format!(in alloc; "{number} alike, {stay}"),
        None => format!(in alloc; "{stay}"),
    }
}

/// Returns the line on a new suppression file, with `left` for the hits that are left.
fn file_with(alloc: Global, file: &NewFile, left: &str) -> Result<String, AllocError>
    ensures { IfOk result (λ s. string_bytes s ≡ said.file_with file.now left.now) }
{
    let accepted = file.accepted;
    let (pruned, entries) = (file.pruned, file.entries);
    format!(in alloc;
        "sarif_gate: {accepted} accepted, {left} stay, {pruned} pruned, {entries} entries\n"
    )
}

/// Returns the line on a new suppression file.
fn file_line(alloc: Global, file: &NewFile) -> Result<String, AllocError>
    ensures { IfOk result (λ s. string_bytes s ≡ said.file_line file.now) }
{
    let left = left_text(alloc, file.alike, file.stay)?;
    file_with(alloc, file, left.as_str())
}

/// Returns the line on a known log.
fn log_line(alloc: Global, log: &KnownLog) -> Result<String, AllocError>
    ensures { IfOk result (λ s. string_bytes s ≡ said.log_line log.now) }
{
    let (known, left_out, kept) = (log.known, log.left_out, log.kept);
    format!(in alloc; "sarif_gate: {known} known, {left_out} left out, {kept} kept\n")
}

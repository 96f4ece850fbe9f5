//! What a diff changes, as one string.
use sarif_diff::{Change, DiffFault, Name, Section, read_sections};
use sarif_model::Refusal;
use std::alloc::{AllocError, Global};
use std::test::Fail;

/// Adds a name, with `%` and two hexadecimal digits for each byte that isn't a printable ASCII character.
fn push_name(text: &mut String, name: &Name) -> Result<(), AllocError> {
    for byte in name.as_slice() {
        if byte.is_ascii_graphic() {
            text.push(*byte as char)?;
        } else {
            write!(text, "%{byte:02X}")?;
        }
    }
    Ok(())
}

/// Adds a section: its name, `whole`, `link`, and the changed lines.
fn push_section(text: &mut String, section: &Section) -> Result<(), AllocError> {
    push_name(text, &section.name)?;
    if let Some(old) = &section.old {
        text.push_str(" was ")?;
        push_name(text, old)?;
    }
    if section.whole {
        text.push_str(" whole")?;
    }
    if section.link {
        text.push_str(" link")?;
    }
    for span in section.spans.as_slice() {
        let first = span.first;
        let last = span.last;
        if first == last {
            write!(text, " {first}")?;
        } else {
            write!(text, " {first}-{last}")?;
        }
    }
    Ok(())
}

/// Returns the sections of a change, with semicolons between them.
fn told_change(alloc: Global, change: &Change) -> Result<String, AllocError> {
    let mut text = String::new(alloc);
    for section in change.sections.as_slice() {
        if !text.is_empty() {
            text.push_str("; ")?;
        }
        push_section(&mut text, section)?;
    }
    Ok(text)
}

/// Returns what a diff changes, or its error.
pub fn told(alloc: Global, diff: &[u8]) -> Result<String, AllocError> {
    match read_sections(alloc, diff) {
        Ok(change) => told_change(alloc, &change),
        Err(Refusal::OutOfMemory) => Err(AllocError),
        Err(Refusal::Fault(DiffFault::NoChange)) => String::from_str(alloc, "NoChange"),
        Err(Refusal::Fault(DiffFault::AtLine(line, fault))) => {
            format!(in alloc; "line {line}: {fault:?}")
        }
    }
}

/// Returns how many lines a diff adds, or `None` if it has an error.
pub fn added_by(alloc: Global, diff: &[u8]) -> Result<Option<usize>, AllocError> {
    match read_sections(alloc, diff) {
        Ok(change) => Ok(Some(change.added)),
        Err(Refusal::OutOfMemory) => Err(AllocError),
        Err(Refusal::Fault(_)) => Ok(None),
    }
}

/// Returns the section of a file with these lines after its header.
pub fn section_of(alloc: Global, file: &str, lines: &str) -> Result<String, AllocError> {
    format!(in alloc; "diff --git a/{file} b/{file}\n--- a/{file}\n+++ b/{file}\n{lines}")
}

/// Adds a diff that is read in another way than expected, with what was read.
fn push_wrong(
    wrong: &mut String,
    diff: &str,
    found: &str,
    expected: &str,
) -> Result<(), AllocError> {
    if found != expected {
        write!(wrong, "{diff}\ngives {found}, expected {expected}\n")?;
    }
    Ok(())
}

/// Returns the rows whose diff is read in another way than expected, with what was read.
pub fn wrong_rows(alloc: Global, rows: &[(&str, &str)]) -> Result<String, Fail> {
    let mut wrong = String::new(alloc);
    for (diff, expected) in rows {
        let found = told(alloc, diff.as_bytes())?;
        push_wrong(&mut wrong, diff, found.as_str(), expected)?;
    }
    Ok(wrong)
}

/// Returns such rows, whose lines follow the header of the section of a.c.
pub fn wrong_sections(alloc: Global, rows: &[(&str, &str)]) -> Result<String, Fail> {
    let mut wrong = String::new(alloc);
    for (lines, expected) in rows {
        let diff = section_of(alloc, "a.c", lines)?;
        let found = told(alloc, diff.as_bytes())?;
        push_wrong(&mut wrong, diff.as_str(), found.as_str(), expected)?;
    }
    Ok(wrong)
}

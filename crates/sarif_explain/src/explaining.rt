//! The explanation of an error.
ghost use Rattle.std.specs.Prelude.{◌≡◌, ◌++◌, ℕ, List, IfOk, OnOk, codes, option_map, string_bytes};
ghost use Rattle.sarif_explain.specs.Internal.Lines.{file_line, line_of, system_line};

use crate::advice::advice_on;
use crate::form::form_of;
use crate::hint::{Hint, hint_of, hint_of_form};
use crate::lines::{push_file, push_line, push_number, shorten};
use crate::mismatch::Mismatch;
use crate::wanted::Wanted;
use crate::whole::{mismatch_of, wanted_by};
use json_parts::without_mark;
use sarif_model::{At, Cause, Fault, MergeFault};
use serde_json::{Error, Value};
use std::alloc::{AllocError, Global};

/// What is known about the source of an error.
#[derive(Clone, Copy, Debug)]
pub struct FaultSource<'a> {
    /// The file name as it was passed; empty if there is none.
    pub file: &'a str,
    /// The bytes that were read from it.
    pub bytes: &'a [u8],
    /// The system's message for the last failed call.
    pub system: Option<&'a str>,
    /// Whether that message says that the file is a folder.
    pub is_folder: bool,
}

/// Adds what was found: the text of the value, or that there is nothing.
fn push_found(alloc: Global, lines: &mut String, mismatch: &Mismatch<'_>) -> Result<(), AllocError>
    ensures { OnOk result ((found : List ℕ)
        × (string_bytes lines.new ≡ string_bytes lines.old ++ line_of (codes "found") found)) }
{
    match mismatch.missing {
        Some(_) => push_line(alloc, lines, "found", "nothing"),
        None => {
            let whole = mismatch.place.value.to_string(alloc)?;
            let text = shorten(alloc, whole.as_str())?;
            push_line(alloc, lines, "found", text.as_str())
        }
    }
}

/// Adds the sentence that says what is expected.
pub(crate) fn push_sentence(
    alloc: Global,
    lines: &mut String,
    wanted: Wanted,
) -> Result<(), AllocError>
    ensures { OnOk result ((sentence : List ℕ)
        × (string_bytes lines.new ≡ string_bytes lines.old ++ line_of (codes "wanted") sentence)) }
{
    let sentence = format!(in alloc; "{wanted}")?;
    push_line(alloc, lines, "wanted", sentence.as_str())
}

/// Adds what is expected, with the member's name if the member is missing.
fn push_wanted(alloc: Global, lines: &mut String, mismatch: &Mismatch<'_>) -> Result<(), AllocError>
    ensures { OnOk result ((sentence : List ℕ)
        × (string_bytes lines.new ≡ string_bytes lines.old ++ line_of (codes "wanted") sentence)) }
{
    let wanted = mismatch.wanted;
    match mismatch.missing {
        Some(name) => {
            let text = format!(in alloc; "the member {name}, {wanted}")?;
            push_line(alloc, lines, "wanted", text.as_str())
        }
        None => push_sentence(alloc, lines, wanted),
    }
}

/// Adds the error in the source.
fn push_mismatch(
    alloc: Global,
    lines: &mut String,
    mismatch: &Mismatch<'_>,
) -> Result<(), AllocError>
    ensures { OnOk result ((found sentence : List ℕ)
        × (string_bytes lines.new ≡ string_bytes lines.old
        ++ (line_of (codes "where") (string_bytes mismatch.now.place.pointer)
        ++ (line_of (codes "found") found ++ line_of (codes "wanted") sentence)))) }
{
    push_line(alloc, lines, "where", mismatch.place.pointer.as_str())?;
    push_found(alloc, lines, mismatch)?;
    push_wanted(alloc, lines, mismatch)
}

/// Adds the position of a JSON error, and the form of the file, if it is known. Returns what the advice depends on.
fn push_position(
    alloc: Global,
    lines: &mut String,
    at: At,
    error: &Error,
    bytes: &[u8],
) -> Result<Hint, AllocError>
    ensures { OnOk result ((spot : List ℕ)
        × (string_bytes lines.new ≡ string_bytes lines.old ++ spot)) }
{
    push_number(alloc, lines, "line", error.line())?;
    push_number(alloc, lines, "column", error.column())?;
    match form_of(alloc, bytes)? {
        Some(form) => {
            push_line(alloc, lines, "found", form.name())?;
            Ok(hint_of_form(at, form))
        }
        None => Ok(Hint::None),
    }
}

/// Adds the position of a JSON error, if that is the error, the form of the file, if it is known, and what is expected.
/// Returns what the advice depends on.
fn push_stop(
    alloc: Global,
    lines: &mut String,
    fault: &MergeFault,
    error: &Error,
    bytes: &[u8],
) -> Result<Hint, AllocError>
    ensures { OnOk result ((spot sentence : List ℕ)
        × (string_bytes lines.new ≡ string_bytes lines.old
        ++ (spot ++ line_of (codes "wanted") sentence))) }
{
    if error.is_memory() {
        return Err(AllocError);
    }
    if fault.cause != Cause::Of(Fault::NotJson) {
        push_sentence(alloc, lines, wanted_by(fault))?;
        return Ok(Hint::None);
    }
    let hint = push_position(alloc, lines, fault.at, error, bytes)?;
    push_sentence(alloc, lines, wanted_by(fault))?;
    Ok(hint)
}

/// Adds what is expected after an error that is not one in what was read, and what was found if that is a folder.
/// Returns what the advice depends on.
fn push_unread(
    alloc: Global,
    lines: &mut String,
    fault: &MergeFault,
    is_folder: bool,
) -> Result<Hint, AllocError>
    ensures { OnOk result ((spot sentence : List ℕ)
        × (string_bytes lines.new ≡ string_bytes lines.old
        ++ (spot ++ line_of (codes "wanted") sentence))) }
{
    let is_folder = is_folder && fault.cause == Cause::ReadFailed;
    if is_folder {
        push_line(alloc, lines, "found", "a folder")?;
    }
    push_sentence(alloc, lines, wanted_by(fault))?;
    Ok(if is_folder { Hint::Folder } else { Hint::None })
}

/// Adds the position of the error, what was found there, and what is expected. Returns what the advice depends on.
fn push_spot(
    alloc: Global,
    lines: &mut String,
    fault: &MergeFault,
    source: &FaultSource<'_>,
) -> Result<Hint, AllocError>
    ensures { OnOk result ((spot sentence : List ℕ)
        × (string_bytes lines.new ≡ string_bytes lines.old
        ++ (spot ++ line_of (codes "wanted") sentence))) }
{
    let Cause::Of(wrong) = fault.cause else {
        return push_unread(alloc, lines, fault, source.is_folder);
    };
    match Value::from_slice(alloc, without_mark(source.bytes)) {
        Ok(value) => {
            let mismatch = mismatch_of(alloc, &value, fault.at, wrong)?;
            push_mismatch(alloc, lines, &mismatch)?;
            Ok(hint_of(&value, wrong, mismatch.missing.is_some()))
        }
        Err(error) => push_stop(alloc, lines, fault, &error, source.bytes),
    }
}

/// Adds the system's message for a failed read or write.
fn push_system(
    alloc: Global,
    lines: &mut String,
    cause: Cause,
    system: Option<&str>,
) -> Result<(), AllocError>
    ensures { OnOk result (string_bytes lines.new ≡ string_bytes lines.old
        ++ system_line cause (option_map (λ message. message.now) system.entry)) }
{
    match (cause, system) {
        (Cause::ReadFailed | Cause::WriteFailed, Some(said)) => {
            push_line(alloc, lines, "system", said)
        }
        _ => Ok(()),
    }
}

/// Returns the lines of an explanation. Each line is two spaces, a name, a colon, a space, a string and a newline.
/// The known lines are in this order: `file`; `where`, a JSON pointer (RFC 6901) to the invalid value, or to the
/// object in which a member is missing; `line` and `column` of a JSON error; `found`, the beginning of the value's
/// compact JSON, `nothing`, the form of a file that is not JSON, or a folder; `wanted`; `system`; `advice`. Strings are
/// shown as in reports. Returns `AllocError` if memory runs out.
pub fn explanation(
    alloc: Global,
    fault: &MergeFault,
    source: &FaultSource<'_>,
) -> Result<String, AllocError>
    ensures { IfOk result (λ s. (spot wanted advice : List ℕ)
        × (string_bytes s ≡ file_line source.now.file.now
        ++ (spot ++ (line_of (codes "wanted") wanted
        ++ (system_line fault.now.cause (option_map (λ message. message.now) source.now.system)
        ++ line_of (codes "advice") advice))))) }
{
    let mut lines = String::new(alloc);
    push_file(alloc, &mut lines, source.file)?;
    let hint = push_spot(alloc, &mut lines, fault, source)?;
    push_system(alloc, &mut lines, fault.cause, source.system)?;
    let advice = advice_on(fault, hint);
    push_line(alloc, &mut lines, "advice", advice)?;
    Ok(lines)
}

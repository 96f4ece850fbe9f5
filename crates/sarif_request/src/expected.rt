//! What is expected of a number or a date, in the message about an invalid one.
use crate::option_rows::{OptionKind, OptionRow, is_date, rows};
use std::alloc::{AllocError, Global};

/// What a date has to be.
pub(crate) const A_DATE: &str = "a date as YYYYMMDD, for example 20251128";

/// What the parser's message has before its sentence.
const BEGINNING: &str = "error: ";

/// What the parser's message has between the name of the option and the reason.
const BEFORE_REASON: &str = "': ";

/// Returns the sentence of the parser's message about an invalid number or date, with what is expected instead of the
/// parser's reason. Returns `None` for any other message, and `AllocError` if memory runs out.
pub(crate) fn sentence_with_expected(
    alloc: Global,
    message: &str,
) -> Result<Option<String>, AllocError> {
    let Some(whole) = message.strip_prefix(BEGINNING) else {
        return Ok(None);
    };
    let Some((start, _reason)) = whole.rsplit_once(BEFORE_REASON) else {
        return Ok(None);
    };
    for row in rows() {
        if ends_with_option(alloc, start, row)? {
            return with_expected(alloc, start, row.kind);
        }
    }
    Ok(None)
}

/// Returns whether this string ends with this option, as the parser's messages name it.
fn ends_with_option(alloc: Global, text: &str, row: &OptionRow) -> Result<bool, AllocError> {
    let (id, value) = (row.id, row.value);
    let name = format!(in alloc; " '--{id} <{value}>")?;
    Ok(text.ends_with(name.as_str()))
}

/// Returns a sentence that starts so, with what is expected of an option of this kind, if that is a number or a date.
fn with_expected(
    alloc: Global,
    start: &str,
    kind: OptionKind,
) -> Result<Option<String>, AllocError> {
    match kind {
        OptionKind::Number(_, _) if is_date(kind) => {
            let sentence = format!(in alloc; "{start}{BEFORE_REASON}expected {A_DATE}")?;
            Ok(Some(sentence))
        }
        OptionKind::Number(least, most) => {
            let sentence = format!(in alloc;
                "{start}{BEFORE_REASON}expected a number from {least} to {most}"
            )?;
            Ok(Some(sentence))
        }
        _ => Ok(None),
    }
}

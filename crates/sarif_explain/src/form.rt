//! What a file that is not JSON is instead.
use json_parts::without_mark;
use serde_json::Value;
use std::alloc::{AllocError, Global};

/// A form of file that is not JSON.
#[derive(Clone, Copy, Debug, PartialEq, Eq)]
pub(crate) enum Form {
    Empty,
    Gzip,
    Zip,
    Utf16,
    Html,
    JsonLines,
}

impl Form {
    /// What such a file is called.
    pub(crate) fn name(self) -> &'static str {
        match self {
            Form::Empty => "an empty file",
            Form::Gzip => "a gzip file",
            Form::Zip => "a ZIP file",
            Form::Utf16 => "UTF-16 or UTF-32",
            Form::Html => "HTML or XML",
            Form::JsonLines => "several JSON values, one per line",
        }
    }

    /// What to do about such a file.
    pub(crate) fn advice(self) -> &'static str {
        match self {
            Form::Empty => "check that the analyser ended normally and wrote its log",
            Form::Gzip => "unpack it first, for example with gzip -d",
            Form::Zip => "unpack it first, for example with unzip",
            Form::Utf16 => "convert it to UTF-8, for example with iconv -f UTF-16 -t UTF-8",
            Form::Html => {
                "check where the file comes from: it may be an error page, or a report in another \
                 format"
            }
            Form::JsonLines => "pass a SARIF log, which is one JSON object",
        }
    }
}

/// Returns the form of a file with these bytes that is not JSON, or `None` if it is none of the known ones. Returns
/// `AllocError` if memory runs out.
pub(crate) fn form_of(alloc: Global, bytes: &[u8]) -> Result<Option<Form>, AllocError> {
    let text = without_mark(bytes);
    let Some(first) = first_byte(text) else {
        return Ok(Some(Form::Empty));
    };
    match text {
        [0x1f, 0x8b, ..] => Ok(Some(Form::Gzip)),
        [b'P', b'K', 3, 4, ..] => Ok(Some(Form::Zip)),
        [0xff, 0xfe, ..] | [0xfe, 0xff, ..] | [0, ..] | [_, 0, ..] => Ok(Some(Form::Utf16)),
        _ if first == b'<' => Ok(Some(Form::Html)),
        _ if are_json_lines(alloc, text)? => Ok(Some(Form::JsonLines)),
        _ => Ok(None),
    }
}

/// Returns the first byte that is not white space of JSON.
fn first_byte(text: &[u8]) -> Option<u8> {
    for byte in text {
        if !matches!(*byte, b' ' | b'\t' | b'\r' | b'\n') {
            return Some(*byte);
        }
    }
    None
}

/// Returns whether the first line of the file is JSON, and a line that isn't blank follows.
fn are_json_lines(alloc: Global, text: &[u8]) -> Result<bool, AllocError> {
    let Some(end) = text.iter().position(|byte| *byte == b'\n') else {
        return Ok(false);
    };
    let (line, rest) = text.split_at(end);
    if first_byte(rest).is_none() {
        return Ok(false);
    }
    match Value::from_slice(alloc, line) {
        Ok(_) => Ok(true),
        Err(error) if error.is_memory() => Err(AllocError),
        Err(_) => Ok(false),
    }
}

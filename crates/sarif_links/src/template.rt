//! The addresses of places.
ghost use Rattle.std.specs.Prelude.{◌≡◌, ◌++◌, ℕ, IfOk, List, OnOk, true, false, map, option_map, flat_map, string_bytes, unwrap_or, []};
ghost use Rattle.std.specs.Fmt.{decimal};
ghost use Rattle.std.specs.Option.{option_map_or};
ghost use Rattle.std.specs.List.{count_by, list_all, list_any};
ghost use Rattle.sarif_links.specs.Address as address;
ghost use Rattle.sarif_links.specs.Template as said;

use crate::address::{
    MOST_OF_ADDRESS, after_scheme, begins_with_host, has_two_signs, is_address_sign, is_host_sign,
};
use crate::path::{is_linkable, push_encoded};
use itoa::Buffer;
use sarif_model::Text;
use std::alloc::{AllocError, Global};
use std::marker::Model;

/// How the address of a place is made from its path and its line. Contracts see its text.
#[derive(Debug, Drop)]
pub struct Template {
    text: Text,
}

impl Model for Template {
    ghost Value = { List ℕ };

    ghost view = { λ t. t.text };

    ghost invariant = { λ t. said.is_template t.text ≡ true };
}

/// What follows `{path}`, without its `{`, in a part that begins with it.
fn after_path(part: &str) -> Option<&str>
    ensures { option_map (λ rest. rest.now) result ≡ said.after_path part.now }
{
    part.strip_prefix("path}")
}

/// What follows `{line}`, without its `{`, in a part that begins with it.
fn after_line(part: &str) -> Option<&str>
    ensures { option_map (λ rest. rest.now) result ≡ said.after_line part.now }
{
    part.strip_prefix("line}")
}

/// Whether each of these may be in an address.
fn are_address_signs(bytes: &[u8]) -> bool
    ensures { result ≡ list_all address.is_address_sign bytes.now }
{
    bytes.iter().all(|byte| is_address_sign(*byte))
}

/// Whether this is a placeholder, without its `{`, and characters of an address.
fn is_part(part: &str) -> bool
    ensures { result ≡ said.is_part part.now }
{
    match after_path(part) {
        Some(rest) => are_address_signs(rest.as_bytes()),
        None => is_line_part(part),
    }
}

/// Whether this is the placeholder of the line, without its `{`, and characters of an address.
fn is_line_part(part: &str) -> bool
    ensures { result
        ≡ option_map_or (list_all address.is_address_sign) (said.after_line part.now) false }
{
    match after_line(part) {
        Some(rest) => are_address_signs(rest.as_bytes()),
        None => false,
    }
}

/// Whether this is the placeholder of the path, without its `{`, and more.
fn is_path_part(part: &str) -> bool
    ensures { result ≡ said.is_path_part part.now }
{
    after_path(part).is_some()
}

/// Whether a slash follows the characters of a host.
fn has_slash_next(bytes: &[u8]) -> bool
    ensures { result ≡ said.has_slash_next bytes.now }
{
    for byte in bytes {
        if *byte == b'/' {
            return true;
        }
        if !is_host_sign(*byte) {
            return false;
        }
    }
    false
}

/// Whether this is a scheme, a host, a slash and characters of an address.
fn is_start(part: &str) -> bool
    ensures { result ≡ said.is_start part.now }
{
    let rest = after_scheme(part);
    begins_with_host(rest) && has_slash_next(rest)
}

/// How many of these begin with `{path}`.
fn paths_among(parts: &[&str]) -> usize
    ensures { result ≡ count_by said.is_path_part (map (λ part. part.now) parts.now) }
{
    let mut count = 0;
    for part in parts {
        if is_path_part(part) {
            count += 1;
        }
    }
    count
}

/// Whether each of these is a placeholder and characters of an address.
fn all_parts(parts: &[&str]) -> bool
    ensures { result ≡ list_all said.is_part (map (λ part. part.now) parts.now) }
{
    for part in parts {
        if !is_part(part) {
            return false;
        }
    }
    true
}

/// Whether these are the parts of a template.
fn are_parts(parts: &[&str]) -> bool
    ensures { result ≡ said.are_parts (map (λ part. part.now) parts.now) }
{
    match parts {
        [] => false,
        [start, others @ ..] => { is_start(start) && all_parts(others) && paths_among(others) == 1 }
    }
}

/// What is before, between and after the `{` of a template.
fn parts_of<'a>(alloc: Global, text: &'a str) -> Result<Vec<&'a str>, AllocError>
    ensures { IfOk result (λ parts. map (λ part. part.now) parts.items ≡ said.parts_of text.now) }
{
    text.split('{').collect(alloc)
}

fn is_template(alloc: Global, text: &str) -> Result<bool, AllocError>
    ensures { IfOk result (λ is. is ≡ said.is_template text.now) }
{
    if text.len() > MOST_OF_ADDRESS || has_two_signs(text.as_bytes()) {
        return Ok(false);
    }
    let parts = parts_of(alloc, text)?;
    Ok(are_parts(parts.as_slice()))
}

/// Adds the line, or 1 if there is none.
fn push_line(text: &mut String, line: Option<u32>) -> Result<(), AllocError>
    ensures { OnOk result (string_bytes text.new
        ≡ string_bytes text.old ++ decimal (unwrap_or line 1)) }
{
    let mut digits = Buffer::new();
    text.push_str(digits.format(line.unwrap_or(1)))?;
    Ok(())
}

/// Adds this part with the line instead of its placeholder.
fn push_line_part(text: &mut String, part: &str, line: Option<u32>) -> Result<(), AllocError>
    ensures { OnOk result (string_bytes text.new ≡ string_bytes text.old
        ++ option_map_or (λ rest. decimal (unwrap_or line 1) ++ rest)
        (said.after_line part.now) []) }
{
    if let Some(rest) = after_line(part) {
        push_line(text, line)?;
        text.push_str(rest)?;
    }
    Ok(())
}

/// Adds this part with the path or the line instead of its placeholder.
fn push_part(text: &mut String, part: &str, path: &str, line: Option<u32>) -> Result<(), AllocError>
    ensures { OnOk result (string_bytes text.new ≡ string_bytes text.old
        ++ said.filled_part path.now (unwrap_or line 1) part.now) }
{
    match after_path(part) {
        Some(rest) => {
            push_encoded(text, path)?;
            text.push_str(rest)?;
            Ok(())
        }
        None => push_line_part(text, part, line),
    }
}

/// Adds these parts, with the path and the line instead of their placeholders.
fn push_parts(
    text: &mut String,
    parts: &[&str],
    path: &str,
    line: Option<u32>,
) -> Result<(), AllocError>
    ensures { OnOk result (string_bytes text.new ≡ string_bytes text.old
        ++ flat_map (said.filled_part path.now (unwrap_or line 1))
        (map (λ part. part.now) parts.now)) }
{
    for part in parts {
        push_part(text, part, path, line)?;
    }
    Ok(())
}

/// Adds the address that these parts of a template make.
fn push_filled(
    text: &mut String,
    parts: &[&str],
    path: &str,
    line: Option<u32>,
) -> Result<(), AllocError>
    ensures { OnOk result (string_bytes text.new ≡ string_bytes text.old
        ++ said.filled path.now (unwrap_or line 1) (map (λ part. part.now) parts.now)) }
{
    if let [start, others @ ..] = parts {
        text.push_str(start)?;
        push_parts(text, others, path, line)?;
    }
    Ok(())
}

impl Template {
    /// Returns this text as a template, or `None` if it is none. A template is `https://` or `http://`, a host, a
    /// slash, and then characters of an address, any number of `{line}` and one `{path}`. It has at most 1,000
    /// characters and no two adjacent `#`. Returns `AllocError` if memory runs out.
    pub fn parse(alloc: Global, text: &str) -> Result<Option<Template>, AllocError>
        ensures { IfOk result (λ template. template ≡ said.template_of text.now) }
    {
        if !is_template(alloc, text)? {
            return Ok(None);
        }
        let text = Text::copy_of(alloc, text)?;
        Ok(Some(Template { text }))
    }

    /// The text of the template.
    pub fn as_str(&self) -> &str
        ensures { result.now ≡ self.now }
    {
        self.text.as_str()
    }
}

/// Returns the address of a line of a path by this template: the path is percent-encoded. Without a line it is that of
/// line 1. Returns `None` if a segment of the path is empty, `.` or `..`, or if the first has a colon: then the path
/// isn't in a folder of the template's. Returns `AllocError` if memory runs out.
pub fn place_address(
    alloc: Global,
    template: &Template,
    path: &str,
    line: Option<u32>,
) -> Result<Option<String>, AllocError>
    ensures { IfOk result (λ address. option_map string_bytes address
        ≡ said.place_address template.now path.now line) }
{
    if !is_linkable(alloc, path)? {
        return Ok(None);
    }
    let parts = parts_of(alloc, template.as_str())?;
    let mut text = String::new(alloc);
    push_filled(&mut text, parts.as_slice(), path, line)?;
    Ok(Some(text))
}

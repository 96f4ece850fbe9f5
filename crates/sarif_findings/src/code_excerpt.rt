//! The lines of a snippet that the code of a result is made from.
ghost use Rattle.std.specs.Prelude.{◌≡◌, IfOk, drop, take, map, option_map, option_and_then};
ghost use Rattle.std.specs.Option.{option_or};
ghost use Rattle.std.specs.Str.Lines as of_text;
ghost use Rattle.sarif_findings.specs.Code as said;
ghost use Rattle.sarif_findings.specs.Internal.CodeParts.{excerpt_of};
ghost use Rattle.sarif_model.specs.Members.{none_if_empty};

use std::alloc::{AllocError, Global};

/// The maximum number of lines of a code.
const MOST_LINES: usize = 5;

/// Some lines of a snippet.
#[derive(Drop)]
pub(crate) struct Excerpt<'a> {
    /// The lines, in order.
    pub(crate) lines: Vec<&'a str>,
    /// The number of the first of them.
    pub(crate) first_number: Option<u32>,
    /// The index of the hit line.
    pub(crate) hit_line: Option<usize>,
}

/// Returns the lines of a string from that index on, at most as many as a code has.
fn lines_from<'a>(alloc: Global, text: &'a str, from: usize) -> Result<Vec<&'a str>, AllocError>
    ensures { IfOk result (λ found. map (λ line. line.now) found.items
        ≡ take said.most_lines (drop from (of_text.lines text.now))) }
{
    text.lines().skip(from).take(MOST_LINES).collect(alloc)
}

/// Returns lines of a context that begins with the line `first`, among them line `line`, if that is one of its lines.
fn with_hit<'a>(
    alloc: Global,
    context: &'a str,
    first: u32,
    line: u32,
) -> Result<Option<Excerpt<'a>>, AllocError>
    ensures { IfOk result (λ found. option_map excerpt_of found ≡ option_map said.taken_lines
        (option_and_then (said.with_hit context.now first) (said.index_among first line))) }
{
    if line < first {
        return Ok(None);
    }
    let hit = (line - first) as usize;
    let from = hit.saturating_sub(2);
    let lines = lines_from(alloc, context, from)?;
    if lines.len() <= hit - from {
        return Ok(None);
    }
    Ok(Some(Excerpt {
        lines,
        first_number: Some(first + from as u32),
        hit_line: Some(hit - from),
    }))
}

/// Returns lines of a context around a line, if these are known and it is one of its lines.
fn lines_around<'a>(
    alloc: Global,
    context: Option<&'a str>,
    first: Option<u32>,
    line: Option<u32>,
) -> Result<Option<Excerpt<'a>>, AllocError>
    ensures { IfOk result (λ found. option_map excerpt_of found ≡ option_map said.taken_lines
        (said.lines_around (option_map (λ s. s.now) context.entry) first line)) }
{
    let Some(context) = context else {
        return Ok(None);
    };
    let Some(first) = first else {
        return Ok(None);
    };
    match line {
        Some(line) => with_hit(alloc, context, first, line),
        None => Ok(None),
    }
}

/// Returns the index of the hit line among the lines of a region, if the number of the first is known.
fn first_if_known(line: Option<u32>) -> Option<usize>
    ensures { result ≡ option_map (λ _. 0) line }
{
    match line {
        Some(_) => Some(0),
        None => None,
    }
}

/// Returns lines of a region that begins with that line.
fn own_lines<'a>(
    alloc: Global,
    region: &'a str,
    line: Option<u32>,
) -> Result<Excerpt<'a>, AllocError>
    ensures { IfOk result
        (λ found. excerpt_of found ≡ said.taken_lines (said.own_lines line region.now)) }
{
    let lines = lines_from(alloc, region, 0)?;
    Ok(Excerpt {
        lines,
        first_number: line,
        hit_line: first_if_known(line),
    })
}

/// Returns the first lines of a context that begins with that line.
fn lines_without_hit<'a>(
    alloc: Global,
    context: &'a str,
    first: Option<u32>,
) -> Result<Excerpt<'a>, AllocError>
    ensures { IfOk result
        (λ found. excerpt_of found ≡ said.taken_lines (said.lines_without_hit first context.now)) }
{
    let lines = lines_from(alloc, context, 0)?;
    Ok(Excerpt {
        lines,
        first_number: first,
        hit_line: None,
    })
}

/// Returns the text, unless it is empty.
fn filled(text: Option<&str>) -> Option<&str>
    ensures { option_map (λ s. s.now) result
        ≡ option_and_then none_if_empty (option_map (λ s. s.now) text.entry) }
{
    let text = text?;
    if text.is_empty() { None } else { Some(text) }
}

/// Returns lines of a region, otherwise of a context, if there is one of them.
fn lines_of_either<'a>(
    alloc: Global,
    region: Option<&'a str>,
    context: Option<&'a str>,
    first: Option<u32>,
    line: Option<u32>,
) -> Result<Option<Excerpt<'a>>, AllocError>
    ensures { IfOk result (λ found. option_map excerpt_of found ≡ option_map said.taken_lines
        (option_or (option_map (said.own_lines line) (option_map (λ s. s.now) region.entry))
        (option_map (said.lines_without_hit first) (option_map (λ s. s.now) context.entry)))) }
{
    if let Some(region) = region {
        return Ok(Some(own_lines(alloc, region, line)?));
    }
    match context {
        Some(context) => Ok(Some(lines_without_hit(alloc, context, first)?)),
        None => Ok(None),
    }
}

/// Returns the lines that the code of a result on this line is made from. The region and the context region have these
/// snippets, and the context region begins with the line `first`. Returns `AllocError` if memory for their list runs out.
pub(crate) fn excerpt_in<'a>(
    alloc: Global,
    region: Option<&'a str>,
    context: Option<&'a str>,
    first: Option<u32>,
    line: Option<u32>,
) -> Result<Option<Excerpt<'a>>, AllocError>
    ensures { IfOk result (λ found. option_map excerpt_of found ≡ option_map said.taken_lines
        (said.chosen_lines
        (option_and_then none_if_empty (option_map (λ s. s.now) region.entry))
        (option_and_then none_if_empty (option_map (λ s. s.now) context.entry)) first line)) }
{
    let context = filled(context);
    if let Some(found) = lines_around(alloc, context, first, line)? {
        return Ok(Some(found));
    }
    lines_of_either(alloc, filled(region), context, first, line)
}

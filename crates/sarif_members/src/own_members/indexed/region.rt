//! The region of the first location of a result of an indexed log, and its snippet.
ghost use Rattle.std.specs.Prelude.{◌≡◌, IfOk, option_map};
ghost use Rattle.sarif_read.specs.Internal.Listed.{value_at};
ghost use Rattle.sarif_members.specs.Regions as said;

use super::super::region::{RegionAndSnippet, have_same_lines, is_all_blank};
use crate::node_members::{first_element, kept_member, text_of, unsigned_of};
use crate::result_node::ResultNode;
use json_parts::Node;
use sarif_model::{Region, Text};
use std::alloc::{AllocError, Global};

/// The member `name` of a value that may be missing.
fn member_in<'t, 'a>(found: &Option<Node<'t, 'a>>, name: &str) -> Option<Node<'t, 'a>>
    ensures { option_map value_at result
        ≡ said.member_in name.now (option_map value_at found.now) }
{
    match found {
        Some(node) => kept_member(node, name),
        None => None,
    }
}

/// `locations[0].physicalLocation` of a result.
fn physical_location<'t, 'a>(found: &ResultNode<'_, 't, 'a>) -> Option<Node<'t, 'a>>
    ensures { option_map value_at result ≡ said.physical_location (value_at found.now) }
{
    let locations = found.kept_member("locations")?;
    let first = first_element(&locations)?;
    kept_member(&first, "physicalLocation")
}

/// The line or the column `name` of a region: an integer from 1 to 4,294,967,295.
fn position_in(region: &Option<Node<'_, '_>>, name: &str) -> Option<u32>
    ensures { result ≡ said.position_in name.now (option_map value_at region.now) }
{
    let number = unsigned_of(&member_in(region, name)?)?;
    match u32::try_from(number) {
        Ok(0) | Err(_) => None,
        Ok(position) => Some(position),
    }
}

/// The lines and columns of a region; `None` if it has no start line.
fn read_lines(region: &Option<Node<'_, '_>>) -> Option<Region>
    ensures { result ≡ said.region_of (option_map value_at region.now) }
{
    let start_line = position_in(region, "startLine")?;
    Some(Region {
        start_line,
        start_column: position_in(region, "startColumn"),
        end_line: position_in(region, "endLine"),
        end_column: position_in(region, "endColumn"),
    })
}

/// The text of the snippet of a region, unless it is white space alone.
fn snippet_in<'a>(region: &Option<Node<'_, 'a>>) -> Option<&'a str>
    ensures { option_map (λ s. s.now) result ≡ said.snippet_in (option_map value_at region.now) }
{
    let snippet = member_in(region, "snippet");
    let text = text_of(&member_in(&snippet, "text")?)?;
    if is_all_blank(text.as_bytes()) {
        None
    } else {
        Some(text)
    }
}

/// The text of the snippet of the context region, if it has exactly the lines of the region.
fn context_snippet<'a>(
    region: &Option<Node<'_, 'a>>,
    context: &Option<Node<'_, 'a>>,
) -> Option<&'a str>
    ensures { option_map (λ s. s.now) result
        ≡ said.context_snippet (option_map value_at region.now)
        (option_map value_at context.now) }
{
    if have_same_lines(read_lines(region), read_lines(context)) {
        snippet_in(context)
    } else {
        None
    }
}

/// The text of the region's own snippet, otherwise that of the context region.
fn find_snippet<'a>(
    region: &Option<Node<'_, 'a>>,
    context: &Option<Node<'_, 'a>>,
) -> Option<&'a str>
    ensures { option_map (λ s. s.now) result
        ≡ said.snippet_of (option_map value_at region.now) (option_map value_at context.now) }
{
    match snippet_in(region) {
        Some(text) => Some(text),
        None => context_snippet(region, context),
    }
}

/// A copy of a snippet, if there is one. No digest of it is made, since few merges look snippets up.
fn copy_snippet(alloc: Global, snippet: Option<&str>) -> Result<Option<Text>, AllocError>
    ensures { IfOk result (λ copy. copy ≡ option_map (λ s. s.now) snippet.entry) }
{
    match snippet {
        None => Ok(None),
        Some(text) => Ok(Some(Text::from_string(String::from_str(alloc, text)?)?)),
    }
}

/// The region of a physical location and its snippet.
fn region_within(
    alloc: Global,
    physical: &Option<Node<'_, '_>>,
) -> Result<RegionAndSnippet, AllocError>
    ensures { IfOk result
        (λ found. found ≡ said.region_within (option_map value_at physical.now)) }
{
    let region = member_in(physical, "region");
    let context = member_in(physical, "contextRegion");
    let snippet = find_snippet(&region, &context);
    Ok(RegionAndSnippet {
        region: read_lines(&region),
        snippet: copy_snippet(alloc, snippet)?,
    })
}

/// The region of a result's first location and the text of its snippet, if they are there; with `regions` they are
/// read, otherwise neither is looked for. Returns `AllocError` if memory for the text runs out (SARIF 2.1.0,
/// physicalLocation object, "region property", "contextRegion property").
pub(super) fn read_region(
    alloc: Global,
    found: &ResultNode<'_, '_, '_>,
    regions: bool,
) -> Result<RegionAndSnippet, AllocError>
    ensures { IfOk result (λ read. read ≡ said.own_region regions (value_at found.now)) }
{
    if regions {
        region_within(alloc, &physical_location(found))
    } else {
        Ok(RegionAndSnippet {
            region: None,
            snippet: None,
        })
    }
}

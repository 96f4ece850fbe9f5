//! The region of a result's first location, and its snippet.
ghost use Rattle.std.specs.Prelude.{◌≡◌, ◌==◌, IfOk, option_map};
ghost use Rattle.std.specs.List.{list_all};
ghost use Rattle.serde_json.specs.View.{view as seen};
ghost use Rattle.sarif_model.specs.WhiteSpace.{is_white_space};
ghost use Rattle.sarif_members.specs.Regions as said;

use sarif_model::{Region, Text, copy_if_there, is_white_space};
use serde_json::Value;
use std::alloc::{AllocError, Global};

/// The region of a result's first location and the text of its snippet, if they are there and are read.
#[derive(Drop)]
pub(super) struct RegionAndSnippet {
    /// The lines and columns of `region`.
    pub region: Option<Region>,
    /// `text` of the snippet of `region`, otherwise of a `contextRegion` of the same lines.
    pub snippet: Option<Text>,
}

/// The member `name` of a value that may be missing.
fn member_in<'a>(found: Option<&'a Value>, name: &str) -> Option<&'a Value>
    ensures { option_map (λ v. seen v.now) result
        ≡ said.member_in name.now (option_map (λ v. seen v.now) found.entry) }
{
    found?.get(name)
}

/// `locations[0].physicalLocation` of a result.
#[tactic(auto, using(sarif_model::proofs::Elements::elements_items_view))]
fn physical_location(result_value: &Value) -> Option<&Value>
    ensures { option_map (λ v. seen v.now) result
        ≡ said.physical_location (seen result_value.now) }
{
    let locations = result_value.get("locations")?.as_array()?;
    locations.as_slice().first()?.get("physicalLocation")
}

/// The line or the column `name` of a region: an integer from 1 to 4,294,967,295.
fn position_in(region: Option<&Value>, name: &str) -> Option<u32>
    ensures { result ≡ said.position_in name.now (option_map (λ v. seen v.now) region.entry) }
{
    let number = member_in(region, name)?.as_u64()?;
    match u32::try_from(number) {
        Ok(0) | Err(_) => None,
        Ok(position) => Some(position),
    }
}

/// The lines and columns of a region; `None` if it has no start line.
fn read_lines(region: Option<&Value>) -> Option<Region>
    ensures { result ≡ said.region_of (option_map (λ v. seen v.now) region.entry) }
{
    let start_line = position_in(region, "startLine")?;
    Some(Region {
        start_line,
        start_column: position_in(region, "startColumn"),
        end_line: position_in(region, "endLine"),
        end_column: position_in(region, "endColumn"),
    })
}

/// Whether a string is white space alone.
pub(super) fn is_all_blank(bytes: &[u8]) -> bool
    ensures { result ≡ list_all is_white_space bytes.now }
{
    bytes.iter().all(|byte| is_white_space(*byte))
}

/// The text of the snippet of a region, unless it is white space alone.
fn snippet_in(region: Option<&Value>) -> Option<&str>
    ensures { option_map (λ s. s.now) result
        ≡ said.snippet_in (option_map (λ v. seen v.now) region.entry) }
{
    let text = member_in(member_in(region, "snippet"), "text")?.as_str()?;
    if is_all_blank(text.as_bytes()) {
        None
    } else {
        Some(text)
    }
}

/// The last line of a region.
fn last_line(region: Region) -> u32
    ensures { result ≡ said.last_line region }
{
    region.end_line.unwrap_or(region.start_line)
}

/// Whether both are there, and have the same first line and the same last line.
pub(super) fn have_same_lines(region: Option<Region>, context: Option<Region>) -> bool
    ensures { result ≡ said.have_same_lines region context }
{
    match (region, context) {
        (Some(region), Some(context)) => {
            region.start_line == context.start_line && last_line(region) == last_line(context)
        }
        _ => false,
    }
}

/// The text of the snippet of the context region, if it has exactly the lines of the region.
fn context_snippet<'a>(region: Option<&Value>, context: Option<&'a Value>) -> Option<&'a str>
    ensures { option_map (λ s. s.now) result
        ≡ said.context_snippet (option_map (λ v. seen v.now) region.entry)
        (option_map (λ v. seen v.now) context.entry) }
{
    if have_same_lines(read_lines(region), read_lines(context)) {
        snippet_in(context)
    } else {
        None
    }
}

/// The text of the region's own snippet, otherwise that of the context region.
fn find_snippet<'a>(region: Option<&'a Value>, context: Option<&'a Value>) -> Option<&'a str>
    ensures { option_map (λ s. s.now) result
        ≡ said.snippet_of (option_map (λ v. seen v.now) region.entry)
        (option_map (λ v. seen v.now) context.entry) }
{
    match snippet_in(region) {
        Some(text) => Some(text),
        None => context_snippet(region, context),
    }
}

/// The region of a physical location and its snippet.
fn region_within(alloc: Global, physical: Option<&Value>) -> Result<RegionAndSnippet, AllocError>
    ensures { IfOk result (λ found. found
        ≡ said.region_within (option_map (λ v. seen v.now) physical.entry)) }
{
    let region = member_in(physical, "region");
    let context = member_in(physical, "contextRegion");
    let snippet = find_snippet(region, context);
    Ok(RegionAndSnippet {
        region: read_lines(region),
        snippet: copy_if_there(alloc, snippet)?,
    })
}

/// The region of a result's first location and the text of its snippet, if they are there; with `regions` they are
/// read, otherwise neither is looked for. Returns `AllocError` if memory for the text runs out (SARIF 2.1.0,
/// physicalLocation object, "region property", "contextRegion property").
pub(super) fn read_region(
    alloc: Global,
    result_value: &Value,
    regions: bool,
) -> Result<RegionAndSnippet, AllocError>
    ensures { IfOk result (λ found. found ≡ said.own_region regions (seen result_value.now)) }
{
    if regions {
        region_within(alloc, physical_location(result_value))
    } else {
        Ok(RegionAndSnippet {
            region: None,
            snippet: None,
        })
    }
}

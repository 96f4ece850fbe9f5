//! The region of a known result and its snippet.
ghost use Rattle.std.specs.Prelude.{◌≡◌, ◌<◌, ◌^◌, ◌++◌, Some, OnOk, codes, option_and_then, option_map};
ghost use Rattle.serde_json.specs.Data.{number, unsigned};
ghost use Rattle.sarif_known.specs.KnownResult.{number_if, object_from, region_for, region_rows, snippet_for};
ghost use Rattle.sarif_known.specs.Internal.Tokens.{value_tokens};

use crate::lines::Lines;
use crate::members::push_text;
use itoa::Buffer;
use json::Token;
use sarif_model::{Region, Text};
use std::alloc::AllocError;

/// Adds a member that is a number.
pub(crate) fn push_number(out: &mut Lines, name: &str, value: u32) -> Result<(), AllocError>
    ensures { OnOk result
        (out.new ≡ out.old ++ value_tokens name.now (Some (number (unsigned value)))) }
{
    let mut buffer = Buffer::new();
    out.token(Token::Key(name))?;
    out.token(Token::Number(buffer.format(value)))?;
    Ok(())
}

/// Adds a member that is a number, if there is one.
fn push_number_if(out: &mut Lines, name: &str, value: Option<u32>) -> Result<(), AllocError>
    ensures { OnOk result (out.new ≡ out.old ++ value_tokens name.now (number_if value)) }
{
    if let Some(value) = value {
        push_number(out, name, value)?;
    }
    Ok(())
}

/// Adds the snippet, if there is one (SARIF 2.1.0, region object, "snippet property").
fn push_snippet_if(out: &mut Lines, snippet: &Option<Text>) -> Result<(), AllocError>
    ensures { OnOk result (out.new
        ≡ out.old ++ value_tokens (codes "snippet") (option_map snippet_for snippet.now)) }
{
    if let Some(snippet) = snippet {
        out.token(Token::Key("snippet"))?;
        out.token(Token::BeginObject)?;
        push_text(out, "text", snippet.as_str())?;
        out.token(Token::EndObject)?;
    }
    Ok(())
}

fn start_line(region: &Option<Region>) -> Option<u32>
    ensures { result ≡ option_map (λ r. r.start_line) region.now }
{
    match region {
        Some(region) => Some(region.start_line),
        None => None,
    }
}

fn start_column(region: &Option<Region>) -> Option<u32>
    ensures { result ≡ option_and_then (λ r. r.start_column) region.now }
{
    match region {
        Some(region) => region.start_column,
        None => None,
    }
}

fn end_line(region: &Option<Region>) -> Option<u32>
    ensures { result ≡ option_and_then (λ r. r.end_line) region.now }
{
    match region {
        Some(region) => region.end_line,
        None => None,
    }
}

fn end_column(region: &Option<Region>) -> Option<u32>
    ensures { result ≡ option_and_then (λ r. r.end_column) region.now }
{
    match region {
        Some(region) => region.end_column,
        None => None,
    }
}

/// Adds the region with its snippet (SARIF 2.1.0, physicalLocation object, "region property").
fn push_region(
    out: &mut Lines,
    region: &Option<Region>,
    snippet: &Option<Text>,
) -> Result<(), AllocError>
    ensures { OnOk result (out.new ≡ out.old ++ value_tokens (codes "region")
        (Some (object_from (region_rows region.now snippet.now)))) }
{
    out.token(Token::Key("region"))?;
    out.token(Token::BeginObject)?;
    push_number_if(out, "endColumn", end_column(region))?;
    push_number_if(out, "endLine", end_line(region))?;
    push_snippet_if(out, snippet)?;
    push_number_if(out, "startColumn", start_column(region))?;
    push_number_if(out, "startLine", start_line(region))?;
    out.token(Token::EndObject)?;
    Ok(())
}

/// Adds the region with its snippet, if it has lines or a snippet.
pub(crate) fn push_region_if(
    out: &mut Lines,
    region: &Option<Region>,
    snippet: &Option<Text>,
) -> Result<(), AllocError>
    ensures { OnOk result (out.new
        ≡ out.old ++ value_tokens (codes "region") (region_for region.now snippet.now)) }
{
    if region.is_some() || snippet.is_some() {
        push_region(out, region, snippet)?;
    }
    Ok(())
}

//! A known result.
ghost use Rattle.std.specs.Prelude.{◌≡◌, ◌<◌, ◌^◌, ◌++◌, Some, OnOk, codes};
ghost use Rattle.serde_json.specs.Data.{no_members, member, number, unsigned};
ghost use Rattle.sarif_known.specs.Chosen.{known_as};
ghost use Rattle.sarif_known.specs.KnownResult.{known_result, locations_for, members_from, message_rows};
ghost use Rattle.sarif_known.specs.KnownResult.{object_from, one_location, region_for, result_rows, uri_rows};
ghost use Rattle.sarif_known.specs.Internal.Tokens.{closed, data_tokens, first_tokens, last_tokens, opened, value_tokens};

use crate::lines::Lines;
use crate::members::{
    push_guid, push_kind, push_level, push_rule_id, push_strings_if, push_suppressions_if,
    push_text, push_text_if, push_texts_if,
};
use crate::region::{push_number, push_region_if};
use json::Token;
use sarif_model::{Message, Record, Text};
use std::alloc::AllocError;

/// Adds the message: its text, its id and its arguments, as far as there are any (SARIF 2.1.0, "message object").
fn push_message(out: &mut Lines, message: &Message) -> Result<(), AllocError>
    ensures { OnOk result (out.new ≡ out.old
        ++ value_tokens (codes "message") (Some (object_from (message_rows message.now)))) }
{
    out.token(Token::Key("message"))?;
    out.token(Token::BeginObject)?;
    push_strings_if(out, "arguments", &message.args)?;
    push_text_if(out, "id", &message.id)?;
    push_text_if(out, "text", &message.text)?;
    out.token(Token::EndObject)?;
    Ok(())
}

/// Opens the member `locations` up to the members of the artifact's location.
fn open_location(out: &mut Lines) -> Result<(), AllocError>
    ensures { OnOk result (out.new ≡ out.old ++ opened) }
{
    out.token(Token::Key("locations"))?;
    out.token(Token::BeginArray)?;
    out.token(Token::BeginObject)?;
    out.token(Token::Key("physicalLocation"))?;
    out.token(Token::BeginObject)?;
    out.token(Token::Key("artifactLocation"))?;
    out.token(Token::BeginObject)?;
    Ok(())
}

/// Closes it again, after the region of this record if regions become known.
fn close_location(out: &mut Lines, found: &Record, regions: bool) -> Result<(), AllocError>
    ensures { let written = known_as regions found.now in
        OnOk result (out.new ≡ out.old ++ closed (region_for written.region written.snippet)) }
{
    out.token(Token::EndObject)?;
    if regions {
        push_region_if(out, &found.region, &found.snippet)?;
    }
    out.token(Token::EndObject)?;
    out.token(Token::EndObject)?;
    out.token(Token::EndArray)?;
    Ok(())
}

/// Adds a place by its URI, and its base next to it if it has one, with the region of this record if regions become
/// known.
fn push_uri(
    out: &mut Lines,
    uri: &Text,
    base: &Option<Text>,
    found: &Record,
    regions: bool,
) -> Result<(), AllocError>
    ensures { let written = known_as regions found.now in
        OnOk result (out.new ≡ out.old ++ value_tokens (codes "locations")
        (Some (one_location (members_from (uri_rows uri.now base.now))
        (region_for written.region written.snippet)))) }
{
    open_location(out)?;
    push_text(out, "uri", uri.as_str())?;
    push_text_if(out, "uriBaseId", base)?;
    close_location(out, found, regions)?;
    Ok(())
}

/// Adds a place by the artifact that has it, with the region of this record if regions become known.
fn push_artifact(
    out: &mut Lines,
    artifact: u32,
    found: &Record,
    regions: bool,
) -> Result<(), AllocError>
    ensures { let written = known_as regions found.now in
        OnOk result (out.new ≡ out.old ++ value_tokens (codes "locations")
        (Some (one_location (member (codes "index") (number (unsigned artifact)) no_members)
        (region_for written.region written.snippet)))) }
{
    open_location(out)?;
    push_number(out, "index", artifact)?;
    close_location(out, found, regions)?;
    Ok(())
}

/// Adds the location, if the place has a URI or the number of an artifact (SARIF 2.1.0, "locations property").
fn push_location(
    out: &mut Lines,
    found: &Record,
    artifact: Option<u32>,
    regions: bool,
) -> Result<(), AllocError>
    ensures { let written = known_as regions found.now in
        OnOk result (out.new ≡ out.old ++ value_tokens (codes "locations")
        (locations_for found.now.place (region_for written.region written.snippet) artifact)) }
{
    match artifact {
        Some(number) => push_artifact(out, number, found, regions),
        None => match &found.place.uri {
            Some(uri) => push_uri(out, uri, &found.place.base, found, regions),
            None => Ok(()),
        },
    }
}

/// Adds the members from `correlationGuid` to `locations`.
fn push_first_members(
    out: &mut Lines,
    found: &Record,
    artifact: Option<u32>,
    regions: bool,
) -> Result<(), AllocError>
    ensures { OnOk result
        (out.new ≡ out.old ++ first_tokens (known_as regions found.now) artifact) }
{
    push_guid(out, found.guid)?;
    push_texts_if(out, "fingerprints", &found.full)?;
    push_kind(out, found.kind)?;
    push_level(out, found.kind, found.level)?;
    push_location(out, found, artifact, regions)?;
    Ok(())
}

/// Adds the members from `message` to `suppressions`.
fn push_last_members(out: &mut Lines, found: &Record) -> Result<(), AllocError>
    ensures { OnOk result (out.new ≡ out.old ++ last_tokens found.now) }
{
    push_message(out, &found.message)?;
    push_texts_if(out, "partialFingerprints", &found.partial)?;
    push_rule_id(out, &found.rule_id)?;
    push_suppressions_if(out, &found.held)?;
    Ok(())
}

/// Adds the result of a record, whose place is that of an artifact if it has a number, with its region if regions
/// become known (SARIF 2.1.0, "result object").
pub(crate) fn push_result(
    out: &mut Lines,
    found: &Record,
    artifact: Option<u32>,
    regions: bool,
) -> Result<(), AllocError>
    ensures { OnOk result (out.new
        ≡ out.old ++ data_tokens (known_result (known_as regions found.now) artifact)) }
{
    out.token(Token::BeginObject)?;
    push_first_members(out, found, artifact, regions)?;
    push_last_members(out, found)?;
    out.token(Token::EndObject)?;
    Ok(())
}

//! The members of a known result.
ghost use Rattle.std.specs.Prelude.{◌≡◌, ◌<◌, ◌++◌, ◌∷◌, [], Some, None, OnOk, codes, map, option_map};
ghost use Rattle.json.specs.Token.{string as string_token, number as number_token};
ghost use Rattle.serde_json.specs.Data.{string};
ghost use Rattle.sarif_model.specs.Written.{list_if_any};
ghost use Rattle.sarif_known.specs.KnownResult.{kind_unless_fail, level_if_fail, texts_if_any};
ghost use Rattle.sarif_model.specs.Guid.{guid_text};
ghost use Rattle.sarif_known.specs.KnownResult.{suppression_for, unless_empty};
ghost use Rattle.sarif_known.specs.Internal.Tokens.{data_tokens, each_tokens, pairs_tokens, value_tokens};

use crate::lines::Lines;
use json::Token;
use sarif_model::{Kind, Level, Pairs, Sequence, Status, Text};
use std::alloc::AllocError;
use uuid::Uuid;

/// Adds a member that is a string.
pub(crate) fn push_text(out: &mut Lines, name: &str, text: &str) -> Result<(), AllocError>
    ensures { OnOk result
        (out.new ≡ out.old ++ value_tokens name.now (Some (string text.now))) }
{
    out.token(Token::Key(name))?;
    out.token(Token::String(text))?;
    Ok(())
}

/// Adds a member that is a string, if there is one.
pub(crate) fn push_text_if(
    out: &mut Lines,
    name: &str,
    text: &Option<Text>,
) -> Result<(), AllocError>
    ensures { OnOk result
        (out.new ≡ out.old ++ value_tokens name.now (option_map string text.now)) }
{
    if let Some(text) = text {
        push_text(out, name, text.as_str())?;
    }
    Ok(())
}

/// Adds strings under their names.
fn push_pairs(out: &mut Lines, pairs: &[(Text, Text)]) -> Result<(), AllocError>
    ensures { OnOk result (out.new ≡ out.old ++ pairs_tokens pairs.now) }
{
    for (name, text) in pairs {
        push_text(out, name.as_str(), text.as_str())?;
    }
    Ok(())
}

/// Adds a member that is an object of strings, unless there are none.
pub(crate) fn push_texts_if(out: &mut Lines, name: &str, pairs: &Pairs) -> Result<(), AllocError>
    ensures { OnOk result (out.new ≡ out.old ++ value_tokens name.now (texts_if_any pairs.now)) }
{
    let pairs = pairs.as_slice();
    if pairs.is_empty() {
        return Ok(());
    }
    out.token(Token::Key(name))?;
    out.token(Token::BeginObject)?;
    push_pairs(out, pairs)?;
    out.token(Token::EndObject)?;
    Ok(())
}

/// Adds strings.
fn push_strings(out: &mut Lines, texts: &[Text]) -> Result<(), AllocError>
    ensures { OnOk result (out.new ≡ out.old ++ each_tokens (map string texts.now)) }
{
    for text in texts {
        out.token(Token::String(text.as_str()))?;
    }
    Ok(())
}

/// Adds a member that is an array of strings, unless there are none.
pub(crate) fn push_strings_if(
    out: &mut Lines,
    name: &str,
    texts: &Sequence<Text>,
) -> Result<(), AllocError>
    ensures { OnOk result
        (out.new ≡ out.old ++ value_tokens name.now (list_if_any (map string texts.now))) }
{
    let texts = texts.as_slice();
    if texts.is_empty() {
        return Ok(());
    }
    out.token(Token::Key(name))?;
    out.token(Token::BeginArray)?;
    push_strings(out, texts)?;
    out.token(Token::EndArray)?;
    Ok(())
}

/// Adds the kind, unless it is `fail` (SARIF 2.1.0, "kind property").
pub(crate) fn push_kind(out: &mut Lines, kind: Kind) -> Result<(), AllocError>
    ensures { OnOk result
        (out.new ≡ out.old ++ value_tokens (codes "kind") (kind_unless_fail kind)) }
{
    if kind != Kind::Fail {
        push_text(out, "kind", kind.name())?;
    }
    Ok(())
}

/// Adds the level, if the kind is `fail` (SARIF 2.1.0, "level property").
pub(crate) fn push_level(out: &mut Lines, kind: Kind, level: Level) -> Result<(), AllocError>
    ensures { OnOk result
        (out.new ≡ out.old ++ value_tokens (codes "level") (level_if_fail kind level)) }
{
    if kind == Kind::Fail {
        push_text(out, "level", level.name())?;
    }
    Ok(())
}

/// Adds the rule's id, unless it is empty (SARIF 2.1.0, "ruleId property").
pub(crate) fn push_rule_id(out: &mut Lines, id: &Text) -> Result<(), AllocError>
    ensures { OnOk result
        (out.new ≡ out.old ++ value_tokens (codes "ruleId") (unless_empty id.now)) }
{
    let id = id.as_str();
    if !id.is_empty() {
        push_text(out, "ruleId", id)?;
    }
    Ok(())
}

/// Adds the GUID, if there is one (SARIF 2.1.0, "correlationGuid property").
pub(crate) fn push_guid(out: &mut Lines, guid: Option<u128>) -> Result<(), AllocError>
    ensures { OnOk result (out.new ≡ out.old ++ value_tokens (codes "correlationGuid")
        (option_map (λ guid. string (guid_text guid)) guid)) }
{
    if let Some(guid) = guid {
        let mut buffer = Uuid::encode_buffer();
        let text = Uuid::from_u128(guid).hyphenated().encode_lower(&mut buffer);
        push_text(out, "correlationGuid", text)?;
    }
    Ok(())
}

/// Adds a suppression with this status (SARIF 2.1.0, "suppression object").
fn push_suppression(out: &mut Lines, status: Status) -> Result<(), AllocError>
    ensures { OnOk result (out.new ≡ out.old ++ data_tokens (suppression_for status)) }
{
    out.token(Token::BeginObject)?;
    push_text(out, "kind", "external")?;
    push_text(out, "status", status.name())?;
    out.token(Token::EndObject)?;
    Ok(())
}

/// Adds a suppression for each of these statuses.
fn push_suppressions(out: &mut Lines, held: &[Status]) -> Result<(), AllocError>
    ensures { OnOk result (out.new ≡ out.old ++ each_tokens (map suppression_for held.now)) }
{
    for status in held {
        push_suppression(out, *status)?;
    }
    Ok(())
}

/// Adds the suppressions of these statuses, unless there are none (SARIF 2.1.0, "suppressions property").
pub(crate) fn push_suppressions_if(
    out: &mut Lines,
    held: &Sequence<Status>,
) -> Result<(), AllocError>
    ensures { OnOk result (out.new ≡ out.old
        ++ value_tokens (codes "suppressions") (list_if_any (map suppression_for held.now))) }
{
    let held = held.as_slice();
    if held.is_empty() {
        return Ok(());
    }
    out.token(Token::Key("suppressions"))?;
    out.token(Token::BeginArray)?;
    push_suppressions(out, held)?;
    out.token(Token::EndArray)?;
    Ok(())
}

//! The message of a result as it is shown.
ghost use Rattle.std.specs.Prelude.{◌≡◌, OnOk, map, option_map, option_and_then, chars, List};
ghost use Rattle.std.specs.Bool.{OnTrue};
ghost use Rattle.std.specs.List.{list_all};
ghost use Rattle.serde_json.specs.Data.{Data};
ghost use Rattle.serde_json.specs.View.{view};
ghost use Rattle.sarif_findings.specs.Located as located;
ghost use Rattle.sarif_findings.specs.Message as said;
ghost use Rattle.sarif_findings.specs.Links.{is_unbracketed, unlinked};
ghost use Rattle.sarif_findings.specs.Placeholders.{filled, is_unbraced};
ghost use Rattle.sarif_findings.specs.Internal.ShownSoFar.{TakesCharacters};
ghost use Rattle.sarif_findings.specs.Internal.Subject.{IsDescribed};

use crate::lookup::{component_of, driver_of, text_in};
use crate::placeholders::{push_filled, push_unlinked};
use crate::shown_text::ShownText;
use crate::subject::Subject;
use serde_json::Value;
use std::alloc::{AllocError, Global};

/// The text of the member of that name of a table of message strings.
fn string_named<'a>(value: &'a Value, table: &str, name: &str) -> Option<&'a str>
    ensures { option_map (λ s. s.now) result
        ≡ said.string_named table.now name.now (view value.now) }
{
    text_in(value.get(table)?.get(name)?, "text")
}

/// The component whose strings a result's message may be one of.
fn strings_of<'a>(subject: &Subject<'a>) -> Option<&'a Value>
    requires { IsDescribed subject.now }
    ensures { option_map (λ v. view v.now) result
        ≡ located.strings_at (view subject.now.run.now) subject.now.told.now.rule }
{
    if subject.descriptor.is_some() {
        component_of(subject.run, &subject.told.rule)
    } else {
        driver_of(subject.run)
    }
}

/// The string of that name of the descriptor.
fn own_string<'a>(subject: &Subject<'a>, name: &str) -> Option<&'a str>
    requires { IsDescribed subject.now }
    ensures { option_map (λ s. s.now) result
        ≡ said.descriptor_string name.now
        (located.descriptor_at (view subject.now.run.now) subject.now.told.now.rule) }
{
    string_named(subject.descriptor?, "messageStrings", name)
}

/// The string of that name of the component.
fn shared_string<'a>(subject: &Subject<'a>, name: &str) -> Option<&'a str>
    requires { IsDescribed subject.now }
    ensures { option_map (λ s. s.now) result
        ≡ said.component_string name.now
        (located.strings_at (view subject.now.run.now) subject.now.told.now.rule) }
{
    string_named(strings_of(subject)?, "globalMessageStrings", name)
}

/// The string with that name in the descriptor, otherwise in the component.
fn looked_up<'a>(subject: &Subject<'a>, name: &str) -> Option<&'a str>
    requires { IsDescribed subject.now }
    ensures { option_map (λ s. s.now) result
        ≡ located.looked_up_at (view subject.now.run.now) subject.now.told.now.rule name.now }
{
    match own_string(subject, name) {
        Some(text) => Some(text),
        None => shared_string(subject, name),
    }
}

/// The message's own text, otherwise the string that its id names.
fn found_text<'a>(subject: &Subject<'a>) -> Option<&'a str>
    requires { IsDescribed subject.now }
    ensures { option_map (λ s. s.now) result
        ≡ located.text_at (view subject.now.run.now) subject.now.told.now }
{
    match subject.told.message.text {
        Some(text) => Some(text),
        None => looked_up(subject, subject.told.message.id?),
    }
}

/// The message's text with its placeholders, or the empty string.
fn message_text<'a>(subject: &Subject<'a>) -> &'a str
    requires { IsDescribed subject.now }
    ensures { result.now
        ≡ located.message_text_at (view subject.now.run.now) subject.now.told.now }
{
    found_text(subject).unwrap_or("")
}

/// Whether none of these bytes is a `[`.
fn are_unbracketed(bytes: &[u8]) -> bool
    ensures { result ≡ list_all is_unbracketed bytes.now }
{
    bytes.iter().all(|byte| *byte != b'[')
}

/// Whether none of these bytes is a `{` or `}`.
fn are_unbraced(bytes: &[u8]) -> bool
    ensures { result ≡ list_all is_unbraced bytes.now }
{
    bytes.iter().all(|byte| !matches!(*byte, b'{' | b'}'))
}

/// Returns whether a message has no link, regardless of the arguments.
fn has_no_link(text: &str) -> bool
    ensures { OnTrue result ((args : List Data)
        → unlinked args (chars text.now) ≡ chars text.now) }
{
    are_unbracketed(text.as_bytes())
}

/// Returns whether a message has nothing to replace, regardless of the arguments.
fn stays(text: &str) -> bool
    ensures { OnTrue result ((args : List Data)
        → filled args (chars text.now) ≡ chars text.now) }
{
    are_unbraced(text.as_bytes())
}

/// The longest message, in bytes, that is searched for links and braces before it is shown. For a longer message only
/// the shown part is read.
const LONGEST_LOOKED_THROUGH: usize = 4_096;

/// Returns whether a search finds no link and, if there are arguments, nothing to replace in a message.
fn is_plain(args: &[Value], text: &str) -> bool
    ensures { OnTrue result (filled (map view args.now)
        (unlinked (map view args.now) (chars text.now)) ≡ chars text.now) }
{
    text.len() <= LONGEST_LOOKED_THROUGH && has_no_link(text) && (args.is_empty() || stays(text))
}

/// Shows a message that may have links and placeholders.
fn push_read(
    alloc: Global,
    so_far: &mut ShownText,
    args: &[Value],
    text: &str,
) -> Result<(), AllocError>
    ensures { OnOk result (TakesCharacters so_far.old so_far.new
        (filled (map view args.now) (unlinked (map view args.now) (chars text.now)))) }
{
    if is_plain(args, text) {
        return so_far.push_str(text);
    }
    if args.is_empty() {
        return push_unlinked(so_far, args, text);
    }
    push_filled(alloc, so_far, args, text)
}

/// Shows the message of a result of a run.
pub(crate) fn push_message(
    alloc: Global,
    so_far: &mut ShownText,
    subject: &Subject<'_>,
) -> Result<(), AllocError>
    requires { IsDescribed subject.now }
    ensures { OnOk result (TakesCharacters so_far.old so_far.new
        (located.message_at (view subject.now.run.now) subject.now.told.now)) }
{
    let text = message_text(subject);
    push_read(alloc, so_far, subject.told.arguments, text)
}

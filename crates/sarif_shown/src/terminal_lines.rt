//! The hits as a terminal shows them.
ghost use Rattle.std.specs.Prelude.{◌≡◌, ◌++◌, ◌-◌, IfOk, OnOk, codes, flat_map, length, map, take, string_bytes};
ghost use Rattle.sarif_findings.specs.Finding.{spot_text};
ghost use Rattle.sarif_shown.specs.TerminalReport as said;

use crate::listing::push_hits;
use crate::place::push_place;
use crate::sentences::more_text;
use crate::text_lines::{push_bracketed, push_source};
use sarif_findings::Finding;
use sarif_model::Level;
use std::alloc::{AllocError, Global};

/// How a terminal shows hits.
#[derive(Clone, Copy, Debug, PartialEq, Eq)]
pub enum Screen {
    /// Without colours.
    Plain,
    /// With bold places and coloured levels.
    Coloured,
}

/// The maximum number of hits that a terminal shows.
const MOST_SHOWN: usize = 50;

/// Returns the style of a level, or the empty string if it has none.
fn level_style(level: Level) -> &'static str
    ensures { result.now ≡ said.level_style level }
{
    match level {
        Level::Error => "1;31",
        Level::Warning => "1;33",
        Level::Note => "36",
        Level::NoLevel => "",
    }
}

/// Adds the control sequence that selects a style.
fn push_sequence(text: &mut String, style: &str) -> Result<(), AllocError>
    ensures { OnOk result
        (string_bytes text.new ≡ string_bytes text.old ++ said.sequence_of style.now) }
{
    text.push_str("\x1b[")?;
    text.push_str(style)?;
    text.push_str("m")?;
    Ok(())
}

/// Adds a string in a style, if it has one and the screen is coloured.
fn push_styled(
    text: &mut String,
    screen: Screen,
    style: &str,
    plain: &str,
) -> Result<(), AllocError>
    ensures { OnOk result (string_bytes text.new
        ≡ string_bytes text.old ++ said.styled screen style.now plain.now) }
{
    if matches!(screen, Screen::Plain) || style.is_empty() {
        text.push_str(plain)?;
        return Ok(());
    }
    push_sequence(text, style)?;
    text.push_str(plain)?;
    push_sequence(text, "0")?;
    Ok(())
}

/// Adds the place of a result.
fn push_place_on(
    alloc: Global,
    text: &mut String,
    screen: Screen,
    finding: &Finding,
) -> Result<(), AllocError>
    ensures { OnOk result (string_bytes text.new ≡ string_bytes text.old
        ++ said.styled screen (codes "1") (spot_text finding.now)) }
{
    let mut place = String::new(alloc);
    push_place(&mut place, finding)?;
    push_styled(text, screen, "1", place.as_str())?;
    Ok(())
}

/// Adds the level and the message.
fn push_said_on(text: &mut String, screen: Screen, finding: &Finding) -> Result<(), AllocError>
    ensures { OnOk result (string_bytes text.new
        ≡ string_bytes text.old ++ said.level_and_message_on screen finding.now) }
{
    text.push_str(": ")?;
    push_styled(
        text,
        screen,
        level_style(finding.level),
        finding.level.name(),
    )?;
    text.push_str(": ")?;
    text.push_str(finding.message.as_str())?;
    Ok(())
}

/// Adds the line of a hit.
fn push_screen_line(
    alloc: Global,
    text: &mut String,
    screen: Screen,
    finding: &Finding,
) -> Result<(), AllocError>
    ensures { OnOk result (string_bytes text.new
        ≡ string_bytes text.old ++ said.screen_line screen finding.now) }
{
    push_place_on(alloc, text, screen, finding)?;
    push_said_on(text, screen, finding)?;
    push_bracketed(text, finding.rule.as_str())?;
    push_source(text, finding)?;
    text.push_str("\n")?;
    Ok(())
}

/// Adds the lines of these hits.
fn push_screen_lines(
    alloc: Global,
    text: &mut String,
    screen: Screen,
    hits: &[&Finding],
) -> Result<(), AllocError>
    ensures { OnOk result (string_bytes text.new ≡ string_bytes text.old
        ++ flat_map (said.screen_line screen) (map (λ f. f.now) hits.now)) }
{
    for finding in hits {
        push_screen_line(alloc, text, screen, finding)?;
    }
    Ok(())
}

/// Returns the first of these hits, as many as a terminal shows.
fn first_shown<'a, 'f>(hits: &'a [&'f Finding]) -> &'a [&'f Finding]
    ensures { result.now ≡ take said.most_shown hits.now }
{
    if hits.len() > MOST_SHOWN {
        &hits[..MOST_SHOWN]
    } else {
        hits
    }
}

/// Returns the line on hits that have no line, if there are any.
fn more_hits_line(alloc: Global, number: usize) -> Result<String, AllocError>
    ensures { IfOk result (λ s. string_bytes s ≡ said.more_hits_line number) }
{
    if number == 0 {
        return Ok(String::new(alloc));
    }
    let sentence = more_text(alloc, number, number)?;
    format!(in alloc; "{sentence}\n")
}

/// Adds the lines of the first of these hits, as many as a terminal shows.
fn push_first_lines(
    alloc: Global,
    text: &mut String,
    screen: Screen,
    hits: &[&Finding],
) -> Result<(), AllocError>
    ensures { OnOk result (string_bytes text.new ≡ string_bytes text.old
        ++ flat_map (said.screen_line screen) (take said.most_shown (map (λ f. f.now) hits.now))) }
{
    push_screen_lines(alloc, text, screen, first_shown(hits))
}

/// Returns the line on those of these hits that a terminal doesn't show, if there are any.
fn rest_line(alloc: Global, hits: &[&Finding]) -> Result<String, AllocError>
    ensures { IfOk result (λ s. string_bytes s
        ≡ said.more_hits_line (length (map (λ f. f.now) hits.now) - said.most_shown)) }
{
    more_hits_line(alloc, hits.len().saturating_sub(MOST_SHOWN))
}

/// Adds the lines of the first of these hits, how many more there are, and an empty line.
fn push_some_lines(
    alloc: Global,
    text: &mut String,
    screen: Screen,
    hits: &[&Finding],
) -> Result<(), AllocError>
    ensures { OnOk result (string_bytes text.new ≡ string_bytes text.old
        ++ said.some_lines screen (map (λ f. f.now) hits.now)) }
{
    push_first_lines(alloc, text, screen, hits)?;
    let rest = rest_line(alloc, hits)?;
    text.push_str(rest.as_str())?;
    text.push_str("\n")?;
    Ok(())
}

/// Adds the lines of these hits, or nothing if there are no hits.
fn push_hit_lines(
    alloc: Global,
    text: &mut String,
    screen: Screen,
    hits: &[&Finding],
) -> Result<(), AllocError>
    ensures { OnOk result (string_bytes text.new ≡ string_bytes text.old
        ++ said.hit_lines screen (map (λ f. f.now) hits.now)) }
{
    if hits.is_empty() {
        return Ok(());
    }
    push_some_lines(alloc, text, screen, hits)
}

/// Returns what a terminal shows of these results: at most 50 hits, one line per hit as in the text report, the worst
/// level first, then how many more hits there are, and an empty line; nothing if there are no hits. Returns
/// `AllocError` if memory for it runs out.
pub fn terminal_report(
    alloc: Global,
    screen: Screen,
    findings: &[Finding],
) -> Result<String, AllocError>
    ensures { IfOk result (λ s. string_bytes s ≡ said.terminal_of screen findings.now) }
{
    let mut hits = Vec::new(alloc);
    push_hits(&mut hits, findings)?;
    let mut text = String::new(alloc);
    push_hit_lines(alloc, &mut text, screen, hits.as_slice())?;
    Ok(text)
}

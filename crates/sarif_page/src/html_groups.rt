//! The groups of a page: their headings, and what the boxes show of them.
ghost use Rattle.std.specs.Prelude.{◌≡◌, ◌<◌, ◌+◌, ◌^◌, ◌++◌, length, take, drop, IfOk, OnOk, option_map, None, string_bytes};
ghost use Rattle.std.specs.List.{count_by};
ghost use Rattle.sarif_counts.specs.Tally.{same_level as level_is};
ghost use Rattle.sarif_page.specs.Internal.ByFile.{findings_in};
ghost use Rattle.sarif_page.specs.Internal.Groups.{group_in, groups_in};
ghost use Rattle.sarif_page.specs.HtmlGroups as said;
ghost use Rattle.sarif_page.specs.HtmlRows.{grouped_rows, most_grouped};

use crate::groups::{Group, MOST_GROUPED};
use crate::html_filters::{same_level, same_state};
use crate::html_rows::{push_file, push_rows};
use sarif_findings::Finding;
use sarif_links::Template;
use sarif_model::{Level, State};
use sarif_shown::count_text;
use std::alloc::{AllocError, Global};

/// How many of these rows have the level.
fn number_of(rows: &[&Finding], level: Level) -> usize
    ensures { result ≡ said.number_of level (findings_in rows.now) }
{
    let mut count = 0;
    for row in rows {
        if same_level(level, row.level) {
            count += 1;
        }
    }
    count
}

/// A number of results of a level.
fn level_text(alloc: Global, level: Level, number: usize) -> Result<String, AllocError>
    ensures { IfOk result (λ s. string_bytes s ≡ said.level_text level number) }
{
    match level {
        Level::Error => count_text(alloc, number, " error", " errors"),
        Level::Warning => count_text(alloc, number, " warning", " warnings"),
        Level::Note => count_text(alloc, number, " note", " notes"),
        Level::NoLevel => count_text(alloc, number, " of level none", " of level none"),
    }
}

/// The number of rows of a level, or the empty string if there are none.
fn level_if(alloc: Global, rows: &[&Finding], level: Level) -> Result<String, AllocError>
    ensures { IfOk result (λ s. string_bytes s
        ≡ said.level_if level (said.number_of level (findings_in rows.now))) }
{
    let number = number_of(rows, level);
    if number == 0 {
        return Ok(String::new(alloc));
    }
    level_text(alloc, level, number)
}

/// Two strings, with a comma between them if there are both.
fn beside(alloc: Global, first: &str, second: &str) -> Result<String, AllocError>
    ensures { IfOk result (λ s. string_bytes s ≡ said.beside first.now second.now) }
{
    if first.is_empty() {
        return String::from_str(alloc, second);
    }
    if second.is_empty() {
        return String::from_str(alloc, first);
    }
    format!(in alloc; "{first}, {second}")
}

/// The numbers of rows by level, for example `1 error, 2 notes`.
#[tactic(auto, unfolding(crate::specs::HtmlGroups::numbers_text))]
pub(crate) fn numbers_text(alloc: Global, rows: &[&Finding]) -> Result<String, AllocError>
    ensures { IfOk result (λ s. string_bytes s ≡ said.numbers_text (findings_in rows.now)) }
{
    let errors = level_if(alloc, rows, Level::Error)?;
    let warnings = level_if(alloc, rows, Level::Warning)?;
    let notes = level_if(alloc, rows, Level::Note)?;
    let nones = level_if(alloc, rows, Level::NoLevel)?;
    let two = beside(alloc, errors.as_str(), warnings.as_str())?;
    let three = beside(alloc, two.as_str(), notes.as_str())?;
    beside(alloc, three.as_str(), nones.as_str())
}

/// Whether one of these rows has the level and the state.
fn has_both(rows: &[&Finding], level: Level, state: State) -> bool
    ensures { result ≡ said.has_both level state (findings_in rows.now) }
{
    for row in rows {
        if same_level(level, row.level) && same_state(state, row.state) {
            return true;
        }
    }
    false
}

/// Adds the level and the state, if a row has both.
fn push_pair(
    text: &mut String,
    rows: &[&Finding],
    level: Level,
    state: State,
) -> Result<(), AllocError>
    ensures { OnOk result (string_bytes text.new
        ≡ string_bytes text.old ++ said.pair_if (findings_in rows.now) level state) }
{
    if has_both(rows, level, state) {
        text.push_str(" ")?;
        text.push_str(level.name())?;
        text.push_str("-")?;
        text.push_str(state.name())?;
    }
    Ok(())
}

/// Adds the level with each state that rows of this level have.
#[tactic(auto, unfolding(crate::specs::HtmlGroups::pairs_with))]
fn push_pairs_with(text: &mut String, rows: &[&Finding], level: Level) -> Result<(), AllocError>
    ensures { OnOk result (string_bytes text.new
        ≡ string_bytes text.old ++ said.pairs_with (findings_in rows.now) level) }
{
    push_pair(text, rows, level, State::New)?;
    push_pair(text, rows, level, State::Unchanged)?;
    push_pair(text, rows, level, State::Updated)?;
    push_pair(text, rows, level, State::Absent)?;
    Ok(())
}

/// Adds the levels and states of these rows.
#[tactic(auto, unfolding(crate::specs::HtmlGroups::pairs_in))]
fn push_pairs(text: &mut String, rows: &[&Finding]) -> Result<(), AllocError>
    ensures { OnOk result
        (string_bytes text.new ≡ string_bytes text.old ++ said.pairs_in (findings_in rows.now)) }
{
    push_pairs_with(text, rows, Level::Error)?;
    push_pairs_with(text, rows, Level::Warning)?;
    push_pairs_with(text, rows, Level::Note)?;
    push_pairs_with(text, rows, Level::NoLevel)?;
    Ok(())
}

/// Adds the attribute by which the boxes show what has one of these rows.
pub(crate) fn push_has(text: &mut String, rows: &[&Finding]) -> Result<(), AllocError>
    ensures { OnOk result
        (string_bytes text.new ≡ string_bytes text.old ++ said.has_data (findings_in rows.now)) }
{
    text.push_str(" data-has=\"")?;
    push_pairs(text, rows)?;
    text.push_str("\"")?;
    Ok(())
}

/// Which of the rows of a file, by the numbers of the first and the last of them.
fn span_text(alloc: Global, first: usize, last: usize) -> Result<String, AllocError>
    ensures { IfOk result (λ s. string_bytes s ≡ said.span_text first last) }
{
    if first == last {
        return format!(in alloc; "{first}");
    }
    format!(in alloc; "{first} to {last}")
}

/// Which rows of its file a group has, or the empty string if it has all.
fn part_text(alloc: Global, first: usize, last: usize, all: usize) -> Result<String, AllocError>
    ensures { IfOk result (λ s. string_bytes s ≡ said.part_text first last all) }
{
    if all <= MOST_GROUPED {
        return Ok(String::new(alloc));
    }
    let span = span_text(alloc, first, last)?;
    format!(in alloc; ", {span} of {all}")
}

fn open_word(room: usize) -> &'static str
    ensures { result.now ≡ said.open_word room }
{
    if room == 0 { "" } else { " open" }
}

/// Adds the beginning of a group, up to its heading.
fn push_group_begin(
    alloc: Global,
    text: &mut String,
    room: usize,
    number: usize,
    rows: &[&Finding],
) -> Result<(), AllocError>
    ensures { OnOk result (string_bytes text.new ≡ string_bytes text.old
        ++ said.group_begin room number (findings_in rows.now)) }
{
    let id = format!(in alloc; "{number}")?;
    text.push_str("<details id=\"f")?;
    text.push_str(id.as_str())?;
    text.push_str("\"")?;
    text.push_str(open_word(room))?;
    push_has(text, rows)?;
    text.push_str("><summary><h3>")?;
    Ok(())
}

/// Adds the heading of a group, up to its rows.
#[tactic(auto, unfolding(crate::specs::HtmlGroups::group_heading))]
fn push_group_heading(
    alloc: Global,
    text: &mut String,
    group: &Group<'_, '_>,
) -> Result<(), AllocError>
    ensures { OnOk result (string_bytes text.new
        ≡ string_bytes text.old ++ said.group_heading (group_in group.now)) }
{
    let part = part_text(alloc, group.first, group.last, group.all)?;
    let numbers = numbers_text(alloc, group.rows)?;
    push_file(text, group.rows)?;
    text.push_str(part.as_str())?;
    text.push_str("</h3> <span>")?;
    text.push_str(numbers.as_str())?;
    text.push_str("</span></summary>\n<ul>\n")?;
    Ok(())
}

/// Adds a group with this number, open if there is room above it.
#[tactic(auto, unfolding(crate::specs::HtmlGroups::group_html))]
fn push_group(
    alloc: Global,
    text: &mut String,
    link: Option<&Template>,
    room: usize,
    number: usize,
    group: &Group<'_, '_>,
) -> Result<(), AllocError>
    ensures { OnOk result (string_bytes text.new ≡ string_bytes text.old
        ++ said.group_html (option_map (λ link. link.now) link.entry) room number
        (group_in group.now)) }
{
    push_group_begin(alloc, text, room, number, group.rows)?;
    push_group_heading(alloc, text, group)?;
    push_rows(alloc, text, link, group.rows)?;
    text.push_str("</ul>\n</details>\n")?;
    Ok(())
}

/// Adds groups from this number on. Those are open before which fewer than `room` rows are.
pub(crate) fn push_groups(
    alloc: Global,
    text: &mut String,
    link: Option<&Template>,
    room: usize,
    number: usize,
    groups: &[Group<'_, '_>],
) -> Result<(), AllocError>
    requires { number + length groups.now < 2 ^ 64 }
    ensures { OnOk result (string_bytes text.new ≡ string_bytes text.old
        ++ said.groups_from (option_map (λ link. link.now) link.entry) room number
        (groups_in groups.now)) }
{
    let mut room = room;
    let mut number = number;
    for group in groups {
        push_group(alloc, text, link, room, number, group)?;
        room = room.saturating_sub(group.rows.len());
        number += 1;
    }
    Ok(())
}

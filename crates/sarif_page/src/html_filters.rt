//! The boxes of a page, which choose the rows that are displayed.
ghost use Rattle.std.specs.Prelude.{◌≡◌, ◌++◌, IfOk, OnOk, codes, flat_map, map, string_bytes};
ghost use Rattle.std.specs.List.{list_any};
ghost use Rattle.sarif_model.specs.Level.{level_name};
ghost use Rattle.sarif_model.specs.State.{state_name};
ghost use Rattle.sarif_counts.specs.Counts.{same_state as state_is};
ghost use Rattle.sarif_counts.specs.Tally.{same_level as level_is};
ghost use Rattle.sarif_page.specs.Internal.ByFile.{findings_in};
ghost use Rattle.sarif_page.specs.Internal.Lists.{tables_in};
ghost use Rattle.sarif_page.specs.HtmlReport as said;

use crate::html_fixed::{filters_begin, filters_end};
use crate::html_tables::Rows;
use sarif_findings::Finding;
use sarif_model::{Level, State};
use std::alloc::{AllocError, Global};

pub(crate) fn same_level(one: Level, other: Level) -> bool
    ensures { result ≡ level_is one other }
{
    match one {
        Level::NoLevel => matches!(other, Level::NoLevel),
        Level::Note => matches!(other, Level::Note),
        Level::Warning => matches!(other, Level::Warning),
        Level::Error => matches!(other, Level::Error),
    }
}

pub(crate) fn same_state(one: State, other: State) -> bool
    ensures { result ≡ state_is one other }
{
    match one {
        State::New => matches!(other, State::New),
        State::Unchanged => matches!(other, State::Unchanged),
        State::Updated => matches!(other, State::Updated),
        State::Absent => matches!(other, State::Absent),
    }
}

/// Whether one of these results has the level.
fn has_level(findings: &[&Finding], level: Level) -> bool
    ensures { result ≡ list_any (λ f. level_is level f.level) (findings_in findings.now) }
{
    for finding in findings {
        if same_level(level, finding.level) {
            return true;
        }
    }
    false
}

/// Whether one of these results has the state.
fn has_state(findings: &[&Finding], state: State) -> bool
    ensures { result ≡ list_any (λ f. state_is state f.state) (findings_in findings.now) }
{
    for finding in findings {
        if same_state(state, finding.state) {
            return true;
        }
    }
    false
}

/// Adds the level, if a row has it.
fn push_level(levels: &mut Vec<Level>, rows: &Rows<'_>, level: Level) -> Result<(), AllocError>
    ensures { OnOk result (levels.new.items ≡ levels.old.items
        ++ said.level_if ((tables_in rows.now).hits ++ (tables_in rows.now).others) level) }
{
    if has_level(&rows.hits, level) || has_level(&rows.others, level) {
        levels.push(level)?;
    }
    Ok(())
}

/// Adds the state, if a row has it.
fn push_state(states: &mut Vec<State>, rows: &Rows<'_>, state: State) -> Result<(), AllocError>
    ensures { OnOk result (states.new.items ≡ states.old.items
        ++ said.state_if ((tables_in rows.now).hits ++ (tables_in rows.now).others) state) }
{
    if has_state(&rows.hits, state) || has_state(&rows.others, state) {
        states.push(state)?;
    }
    Ok(())
}

/// The levels of the rows.
fn levels_in(alloc: Global, rows: &Rows<'_>) -> Result<Vec<Level>, AllocError>
    ensures { IfOk result (λ levels. levels.items
        ≡ said.levels_in ((tables_in rows.now).hits ++ (tables_in rows.now).others)) }
{
    let mut levels = Vec::new(alloc);
    push_level(&mut levels, rows, Level::Error)?;
    push_level(&mut levels, rows, Level::Warning)?;
    push_level(&mut levels, rows, Level::Note)?;
    push_level(&mut levels, rows, Level::NoLevel)?;
    Ok(levels)
}

/// The states of the rows.
fn states_in(alloc: Global, rows: &Rows<'_>) -> Result<Vec<State>, AllocError>
    ensures { IfOk result (λ states. states.items
        ≡ said.states_in ((tables_in rows.now).hits ++ (tables_in rows.now).others)) }
{
    let mut states = Vec::new(alloc);
    push_state(&mut states, rows, State::New)?;
    push_state(&mut states, rows, State::Unchanged)?;
    push_state(&mut states, rows, State::Updated)?;
    push_state(&mut states, rows, State::Absent)?;
    Ok(states)
}

/// A box with this name.
fn box_named(alloc: Global, name: &str) -> Result<String, AllocError>
    ensures { IfOk result (λ s. string_bytes s ≡ said.box name.now) }
{
    format!(in alloc; "<label><input type=\"checkbox\" id=\"{name}\" checked>{name}</label>")
}

/// A box for each of these levels.
fn level_boxes(alloc: Global, levels: &[Level]) -> Result<String, AllocError>
    ensures { IfOk result
        (λ s. string_bytes s ≡ flat_map said.box (map level_name levels.now)) }
{
    let mut text = String::new(alloc);
    for level in levels {
        let named = box_named(alloc, level.name())?;
        text.push_str(named.as_str())?;
    }
    Ok(text)
}

/// A box for each of these states.
fn state_boxes(alloc: Global, states: &[State]) -> Result<String, AllocError>
    ensures { IfOk result
        (λ s. string_bytes s ≡ flat_map said.box (map state_name states.now)) }
{
    let mut text = String::new(alloc);
    for state in states {
        let named = box_named(alloc, state.name())?;
        text.push_str(named.as_str())?;
    }
    Ok(text)
}

/// Adds the boxes of a group.
fn push_group(text: &mut String, legend: &str, boxes: &str) -> Result<(), AllocError>
    ensures { OnOk result
        (string_bytes text.new ≡ string_bytes text.old ++ said.group_of legend.now boxes.now) }
{
    text.push_str("<fieldset><legend>")?;
    text.push_str(legend)?;
    text.push_str("</legend>")?;
    text.push_str(boxes)?;
    text.push_str("</fieldset>\n")?;
    Ok(())
}

/// Adds a box for each level, if there are two or more.
#[tactic(auto, unfolding(crate::specs::HtmlReport::boxes))]
fn push_levels(alloc: Global, text: &mut String, levels: &[Level]) -> Result<(), AllocError>
    ensures { OnOk result (string_bytes text.new
        ≡ string_bytes text.old ++ said.boxes (codes "Level") (map level_name levels.now)) }
{
    if levels.len() < 2 {
        return Ok(());
    }
    let boxes = level_boxes(alloc, levels)?;
    push_group(text, "Level", boxes.as_str())?;
    Ok(())
}

/// Adds a box for each state, if there are two or more.
#[tactic(auto, unfolding(crate::specs::HtmlReport::boxes))]
fn push_states(alloc: Global, text: &mut String, states: &[State]) -> Result<(), AllocError>
    ensures { OnOk result (string_bytes text.new
        ≡ string_bytes text.old ++ said.boxes (codes "State") (map state_name states.now)) }
{
    if states.len() < 2 {
        return Ok(());
    }
    let boxes = state_boxes(alloc, states)?;
    push_group(text, "State", boxes.as_str())?;
    Ok(())
}

/// Adds the boxes for these levels and states.
#[tactic(auto, unfolding(crate::specs::HtmlReport::filters_by))]
fn push_both(
    alloc: Global,
    text: &mut String,
    levels: &[Level],
    states: &[State],
) -> Result<(), AllocError>
    ensures { OnOk result (string_bytes text.new
        ≡ string_bytes text.old ++ said.filters_by levels.now states.now) }
{
    if levels.len() < 2 && states.len() < 2 {
        return Ok(());
    }
    text.push_str(filters_begin())?;
    push_levels(alloc, text, levels)?;
    push_states(alloc, text, states)?;
    text.push_str(filters_end())?;
    Ok(())
}

/// Adds the boxes for the levels and the states of the rows.
#[tactic(auto, unfolding(crate::specs::HtmlReport::filters_of))]
pub(crate) fn push_filters(
    alloc: Global,
    text: &mut String,
    rows: &Rows<'_>,
) -> Result<(), AllocError>
    ensures { OnOk result (string_bytes text.new ≡ string_bytes text.old
        ++ said.filters_of ((tables_in rows.now).hits ++ (tables_in rows.now).others)) }
{
    let levels = levels_in(alloc, rows)?;
    let states = states_in(alloc, rows)?;
    push_both(alloc, text, &levels, &states)?;
    Ok(())
}

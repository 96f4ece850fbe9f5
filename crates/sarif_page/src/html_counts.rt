//! The counts of a page.
ghost use Rattle.std.specs.Prelude.{◌≡◌, ◌++◌, false, IfOk, OnOk, option_map, string_bytes};
ghost use Rattle.sarif_counts.specs.Counts.{count_at};
ghost use Rattle.sarif_page.specs.HtmlReport as said;

use crate::html_fixed::{counts_begin, counts_end, counts_head};
use sarif_counts::Counts;
use sarif_model::{Level, State};
use sarif_options::Policy;
use sarif_shown::{CountRow, row_numbers};
use std::alloc::{AllocError, Global};

/// A number of hits, set off if there are any.
fn strong(alloc: Global, number: u32) -> Result<String, AllocError>
    ensures { IfOk result (λ s. string_bytes s ≡ said.strong number) }
{
    if number == 0 {
        return String::from_str(alloc, "0");
    }
    format!(in alloc; "<b>{number}</b>")
}

/// A number of results that are not hits.
fn plain_cell(alloc: Global, number: u64) -> Result<String, AllocError>
    ensures { IfOk result (λ s. string_bytes s ≡ said.number_cell false number) }
{
    format!(in alloc; "<td>{number}</td>")
}

/// A number of results, which are hits or not.
fn number_cell(alloc: Global, are_hits: bool, number: u32) -> Result<String, AllocError>
    ensures { IfOk result (λ s. string_bytes s ≡ said.number_cell are_hits number) }
{
    if !are_hits {
        return plain_cell(alloc, u64::from(number));
    }
    let number = strong(alloc, number)?;
    format!(in alloc; "<td class=\"on\">{number}</td>")
}

/// Whether the results of this state and level are marked as hits.
fn is_on(marks: Option<&Policy>, state: State, level: Level) -> bool
    ensures { result ≡ said.is_on (option_map (λ policy. policy.now) marks.entry) state level }
{
    match marks {
        None => false,
        Some(policy) => policy.counts(state, level),
    }
}

/// The end of the caption, if cells are marked.
fn caption_end(marks: Option<&Policy>) -> &'static str
    ensures { result.now ≡ said.caption_end (option_map (λ policy. policy.now) marks.entry) }
{
    match marks {
        None => "",
        Some(_) => "; hits in bold",
    }
}

/// The cells of a state's active results, by level.
#[tactic(auto, unfolding(crate::specs::HtmlReport::level_cells))]
fn level_cells(
    alloc: Global,
    marks: Option<&Policy>,
    state: State,
    row: &CountRow,
) -> Result<String, AllocError>
    ensures { IfOk result (λ s. string_bytes s
        ≡ said.level_cells (option_map (λ policy. policy.now) marks.entry) state row.now) }
{
    let error = number_cell(alloc, is_on(marks, state, Level::Error), row.error)?;
    let warning = number_cell(alloc, is_on(marks, state, Level::Warning), row.warning)?;
    let note = number_cell(alloc, is_on(marks, state, Level::Note), row.note)?;
    let none = number_cell(alloc, is_on(marks, state, Level::NoLevel), row.none)?;
    format!(in alloc; "{error}{warning}{note}{none}")
}

/// The row of one state, with these numbers.
fn row_of(
    alloc: Global,
    marks: Option<&Policy>,
    state: State,
    row: &CountRow,
) -> Result<String, AllocError>
    ensures { IfOk result (λ s. string_bytes s
        ≡ said.row_of (option_map (λ policy. policy.now) marks.entry) state row.now) }
{
    let name = state.name();
    let cells = level_cells(alloc, marks, state, row)?;
    let last = plain_cell(alloc, row.suppressed)?;
    format!(in alloc; "<tr><th scope=\"row\" align=\"left\">{name}</th>{cells}{last}</tr>\n")
}

/// Adds the row of one state.
#[tactic(auto, unfolding(crate::specs::HtmlReport::count_row))]
fn push_count_row(
    alloc: Global,
    text: &mut String,
    counts: &Counts,
    marks: Option<&Policy>,
    state: State,
) -> Result<(), AllocError>
    ensures { OnOk result (string_bytes text.new
        ≡ string_bytes text.old
        ++ said.count_row (option_map (λ policy. policy.now) marks.entry) state
        (count_at counts.now state)) }
{
    let row = row_of(alloc, marks, state, &row_numbers(counts, state))?;
    text.push_str(row.as_str())?;
    Ok(())
}

/// Adds the table of counts, which sets the hits off if they are marked.
#[tactic(auto, unfolding(crate::specs::HtmlReport::counts_table))]
pub(crate) fn push_counts(
    alloc: Global,
    text: &mut String,
    counts: &Counts,
    marks: Option<&Policy>,
) -> Result<(), AllocError>
    ensures { OnOk result (string_bytes text.new
        ≡ string_bytes text.old ++ said.counts_table (count_at counts.now)
        (option_map (λ policy. policy.now) marks.entry)) }
{
    text.push_str(counts_begin())?;
    text.push_str(caption_end(marks))?;
    text.push_str(counts_head())?;
    push_count_row(alloc, text, counts, marks, State::New)?;
    push_count_row(alloc, text, counts, marks, State::Unchanged)?;
    push_count_row(alloc, text, counts, marks, State::Updated)?;
    push_count_row(alloc, text, counts, marks, State::Absent)?;
    text.push_str(counts_end())?;
    Ok(())
}

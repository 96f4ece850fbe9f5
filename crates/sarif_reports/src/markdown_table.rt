//! The report for job summaries and comments on a change.
ghost use Rattle.std.specs.Prelude.{◌≡◌, ◌≤◌, ◌++◌, IfOk, OnOk, codes, drop, flat_map, length, map, option_map, take, string_bytes};
ghost use Rattle.std.specs.List.{count_by, enumerate_from};
ghost use Rattle.sarif_shown.specs.declared.escaping.Escaping.TheVariants.{Page};
ghost use Rattle.sarif_shown.specs.Escaped.{escaped};
ghost use Rattle.sarif_counts.specs.Counts.{count_at};
ghost use Rattle.sarif_counts.specs.Impacts.{is_hit};
ghost use Rattle.sarif_shown.specs.CountRow.{row_begin, row_end};
ghost use Rattle.sarif_shown.specs.Facts.{facts_of};
ghost use Rattle.sarif_reports.specs.MarkdownReport as said;
ghost use Rattle.sarif_reports.specs.MarkdownLaws.{most_of};

use sarif_conditions::{ConditionFacts, PolicyFacts};
use sarif_counts::{Counts, Verdict};
use sarif_findings::Finding;
use sarif_links::Template;
use sarif_model::State;
use sarif_shown::{
    Escaping, Noted, ReportInput, accept_text, condition_cells, entries_text, filters_text,
    gate_ending, gate_hits, gate_text, gate_verdict, list_findings, more_text, noted_in,
    outside_text, place_link, push_place, row_numbers, runs_text, unchecked_text, unshown_results,
    unshown_text,
};
use std::alloc::{AllocError, Global};

/// The maximum number of results in the table.
const MOST_ROWS: usize = 200;

/// The maximum number of bytes of their rows.
const MOST_BYTES: usize = 60_000;

/// The maximum number of hits whose rows have a line of code.
const MOST_CODED: usize = 20;

const COUNTS_HEAD: &str = "\
| | error | warning | note | none | suppressed |\n|---|--:|--:|--:|--:|--:|\n";

const CONDITIONS_HEAD: &str = "\
\n| condition | verdict | hits | limit | outside |\n|---|---|--:|--:|--:|\n";

const RESULTS_HEAD: &str = "\
\n| hit | level | place | rule | message | tool | state |\n|---|---|---|---|---|---|---|\n";

/// Adds a string as code; an empty string adds nothing.
fn push_code(alloc: Global, text: &mut String, plain: &str) -> Result<(), AllocError>
    ensures { OnOk result
        (string_bytes text.new ≡ string_bytes text.old ++ said.code_of plain.now) }
{
    if !plain.is_empty() {
        text.push_str("<code>")?;
        Escaping::Markdown.push_str(alloc, text, plain)?;
        text.push_str("</code>")?;
    }
    Ok(())
}

fn heading(alloc: Global, verdict: Verdict, end: &str) -> Result<String, AllocError>
    ensures { IfOk result (λ s. string_bytes s ≡ said.heading verdict end.now) }
{
    let gate = gate_text(alloc, verdict, end)?;
    format!(in alloc; "## {gate}\n\n")
}

/// A state's name and its active errors and warnings.
fn row_begin(alloc: Global, name: &str, error: u32, warning: u32) -> Result<String, AllocError>
    ensures { IfOk result (λ s. string_bytes s ≡ row_begin name.now error warning) }
{
    format!(in alloc; "| {name} | {error} | {warning} | ")
}

/// A state's other active results, and its suppressed ones.
fn row_end(alloc: Global, note: u32, none: u32, hidden: u64) -> Result<String, AllocError>
    ensures { IfOk result (λ s. string_bytes s ≡ row_end note none hidden) }
{
    format!(in alloc; "{note} | {none} | {hidden} |\n")
}

/// Adds the row of one state.
fn push_count_row(
    alloc: Global,
    text: &mut String,
    counts: &Counts,
    state: State,
) -> Result<(), AllocError>
    ensures { OnOk result (string_bytes text.new
        ≡ string_bytes text.old ++ said.count_row state (count_at counts.now state)) }
{
    let numbers = row_numbers(counts, state);
    let begin = row_begin(alloc, state.name(), numbers.error, numbers.warning)?;
    let end = row_end(alloc, numbers.note, numbers.none, numbers.suppressed)?;
    text.push_str(begin.as_str())?;
    text.push_str(end.as_str())?;
    Ok(())
}

/// Adds the table of counts.
fn push_counts(alloc: Global, text: &mut String, counts: &Counts) -> Result<(), AllocError>
    ensures { OnOk result (string_bytes text.new
        ≡ string_bytes text.old ++ said.counts_table (count_at counts.now)) }
{
    text.push_str(COUNTS_HEAD)?;
    push_count_row(alloc, text, counts, State::New)?;
    push_count_row(alloc, text, counts, State::Unchanged)?;
    push_count_row(alloc, text, counts, State::Updated)?;
    push_count_row(alloc, text, counts, State::Absent)?;
    Ok(())
}

/// Adds the row of a condition.
fn push_condition_row(
    alloc: Global,
    text: &mut String,
    condition: &ConditionFacts,
) -> Result<(), AllocError>
    ensures { OnOk result
        (string_bytes text.new ≡ string_bytes text.old ++ said.condition_row condition.now) }
{
    let cells = condition_cells(alloc, " | ", "", condition)?;
    text.push_str("| ")?;
    push_code(alloc, text, condition.name.as_str())?;
    text.push_str(cells.as_str())?;
    text.push_str(" |\n")?;
    Ok(())
}

/// Adds the rows of these conditions.
fn push_condition_rows(
    alloc: Global,
    text: &mut String,
    conditions: &[ConditionFacts],
) -> Result<(), AllocError>
    ensures { OnOk result (string_bytes text.new
        ≡ string_bytes text.old ++ said.condition_rows conditions.now) }
{
    for condition in conditions {
        push_condition_row(alloc, text, condition)?;
    }
    Ok(())
}

/// Returns the rows of the conditions.
fn condition_rows(alloc: Global, ruling: &PolicyFacts) -> Result<String, AllocError>
    ensures { IfOk result (λ s. string_bytes s ≡ said.condition_rows ruling.now.conditions) }
{
    let mut rows = String::new(alloc);
    push_condition_rows(alloc, &mut rows, ruling.conditions.as_slice())?;
    Ok(rows)
}

/// Adds the table of the conditions, if there is a policy. Returns how many bytes the rows of results may have.
fn push_conditions(
    alloc: Global,
    text: &mut String,
    ruling: Option<&PolicyFacts>,
) -> Result<usize, AllocError>
    ensures table { OnOk result (string_bytes text.new ≡ string_bytes text.old
        ++ said.conditions_table (option_map (λ ruling. ruling.now) ruling.entry)) }
    ensures room { IfOk result
        (λ room. room ≡ said.room_for (option_map (λ ruling. ruling.now) ruling.entry)) }
{
    let Some(ruling) = ruling else {
        return Ok(MOST_BYTES);
    };
    let rows = condition_rows(alloc, ruling)?;
    text.push_str(CONDITIONS_HEAD)?;
    text.push_str(rows.as_str())?;
    Ok(MOST_BYTES.saturating_sub(rows.len()))
}

fn hit_cell(hit: bool) -> &'static str
    ensures { result.now ≡ said.hit_cell hit }
{
    if hit { "| yes | " } else { "|  | " }
}

/// Adds the title of a link, if it has one.
fn push_title(alloc: Global, text: &mut String, name: Option<&str>) -> Result<(), AllocError>
    ensures { OnOk result (string_bytes text.new
        ≡ string_bytes text.old ++ said.title_of (option_map (λ name. name.now) name.entry)) }
{
    if let Some(name) = name {
        text.push_str(" title=\"")?;
        Escaping::Markdown.push_str(alloc, text, name)?;
        text.push_str("\"")?;
    }
    Ok(())
}

/// Adds the start of a link to this address.
fn push_anchor_start(
    alloc: Global,
    text: &mut String,
    address: &str,
    name: Option<&str>,
) -> Result<(), AllocError>
    ensures { OnOk result (string_bytes text.new ≡ string_bytes text.old
        ++ (codes "<a href=\"" ++ (escaped Page address.now ++ (codes "\""
        ++ (said.title_of (option_map (λ name. name.now) name.entry) ++ codes ">"))))) }
{
    text.push_str("<a href=\"")?;
    Escaping::Page.push_str(alloc, text, address)?;
    text.push_str("\"")?;
    push_title(alloc, text, name)?;
    text.push_str(">")?;
    Ok(())
}

/// Adds a string as code, in a link to this address.
fn push_anchor(
    alloc: Global,
    text: &mut String,
    address: &str,
    name: Option<&str>,
    plain: &str,
) -> Result<(), AllocError>
    ensures { OnOk result (string_bytes text.new ≡ string_bytes text.old
        ++ said.anchor address.now (option_map (λ name. name.now) name.entry) plain.now) }
{
    push_anchor_start(alloc, text, address, name)?;
    push_code(alloc, text, plain)?;
    text.push_str("</a>")?;
    Ok(())
}

/// Adds the place, which links to its address if there is one.
fn push_place_cell(
    alloc: Global,
    text: &mut String,
    link: Option<&Template>,
    finding: &Finding,
) -> Result<(), AllocError>
    ensures { OnOk result (string_bytes text.new ≡ string_bytes text.old
        ++ said.place_cell (option_map (λ link. link.now) link.entry) finding.now) }
{
    let mut place = String::new(alloc);
    push_place(&mut place, finding)?;
    match place_link(alloc, link, finding)? {
        Some(address) => push_anchor(alloc, text, address.as_str(), None, place.as_str())?,
        None => push_code(alloc, text, place.as_str())?,
    }
    Ok(())
}

/// Adds the rule in a link to this address, with its name if it has one.
fn push_rule_link(
    alloc: Global,
    text: &mut String,
    address: &str,
    finding: &Finding,
) -> Result<(), AllocError>
    ensures { OnOk result (string_bytes text.new ≡ string_bytes text.old
        ++ said.anchor address.now finding.now.rule_name finding.now.rule) }
{
    let rule = finding.rule.as_str();
    match &finding.rule_name {
        Some(name) => push_anchor(alloc, text, address, Some(name.as_str()), rule)?,
        None => push_anchor(alloc, text, address, None, rule)?,
    }
    Ok(())
}

/// Adds the rule, which links to its page if there is one.
fn push_rule_cell(alloc: Global, text: &mut String, finding: &Finding) -> Result<(), AllocError>
    ensures { OnOk result (string_bytes text.new ≡ string_bytes text.old
        ++ said.rule_cell finding.now.rule finding.now.help finding.now.rule_name) }
{
    let rule = finding.rule.as_str();
    if rule.is_empty() {
        return Ok(());
    }
    match &finding.help {
        Some(address) => push_rule_link(alloc, text, address.as_str(), finding)?,
        None => push_code(alloc, text, rule)?,
    }
    Ok(())
}

/// Adds a line of the code, if the row has one and there is code.
fn push_code_line(
    alloc: Global,
    text: &mut String,
    coded: bool,
    finding: &Finding,
) -> Result<(), AllocError>
    ensures { OnOk result (string_bytes text.new
        ≡ string_bytes text.old ++ said.code_line coded finding.now.code) }
{
    if coded {
        if let Some(code) = &finding.code {
            text.push_str("<br>")?;
            push_code(alloc, text, code.one_line())?;
        }
    }
    Ok(())
}

/// Adds the rule and the message of a row.
fn push_rule_cells(
    alloc: Global,
    text: &mut String,
    coded: bool,
    finding: &Finding,
) -> Result<(), AllocError>
    ensures { OnOk result
        (string_bytes text.new ≡ string_bytes text.old ++ said.rule_cells coded finding.now) }
{
    push_rule_cell(alloc, text, finding)?;
    text.push_str(" | ")?;
    push_code(alloc, text, finding.message.as_str())?;
    push_code_line(alloc, text, coded, finding)?;
    text.push_str(" | ")?;
    Ok(())
}

/// Adds the tool and the state of a row, and ends it.
fn push_tool_cells(alloc: Global, text: &mut String, finding: &Finding) -> Result<(), AllocError>
    ensures { OnOk result
        (string_bytes text.new ≡ string_bytes text.old ++ said.tool_cells finding.now) }
{
    push_code(alloc, text, finding.tool.as_str())?;
    text.push_str(" | ")?;
    text.push_str(finding.state.name())?;
    text.push_str(" |\n")?;
    Ok(())
}

/// Adds the hit, the level and the place of a row.
fn push_place_cells(
    alloc: Global,
    text: &mut String,
    link: Option<&Template>,
    finding: &Finding,
) -> Result<(), AllocError>
    ensures { OnOk result (string_bytes text.new ≡ string_bytes text.old
        ++ said.place_cells (option_map (λ link. link.now) link.entry) finding.now) }
{
    text.push_str(hit_cell(finding.impact.is_hit()))?;
    text.push_str(finding.level.name())?;
    text.push_str(" | ")?;
    push_place_cell(alloc, text, link, finding)?;
    text.push_str(" | ")?;
    Ok(())
}

/// Adds the row of a result, with a line of its code if the row has one.
fn push_row(
    alloc: Global,
    text: &mut String,
    link: Option<&Template>,
    coded: bool,
    finding: &Finding,
) -> Result<(), AllocError>
    ensures { OnOk result (string_bytes text.new ≡ string_bytes text.old
        ++ said.result_row (option_map (λ link. link.now) link.entry) coded finding.now) }
{
    push_place_cells(alloc, text, link, finding)?;
    push_rule_cells(alloc, text, coded, finding)?;
    push_tool_cells(alloc, text, finding)?;
    Ok(())
}

/// The row of the listed result with that index.
fn row_of(
    alloc: Global,
    link: Option<&Template>,
    index: usize,
    finding: &Finding,
) -> Result<String, AllocError>
    ensures { IfOk result (λ s. string_bytes s
        ≡ said.row_text (option_map (λ link. link.now) link.entry) (index, finding.now)) }
{
    let mut row = String::new(alloc);
    let coded = index < MOST_CODED && finding.impact.is_hit();
    push_row(alloc, &mut row, link, coded, finding)?;
    Ok(row)
}

/// Adds the rows of these results, as many from the first on as fit into `room` bytes. Returns how many these are.
fn push_fitting(
    alloc: Global,
    text: &mut String,
    link: Option<&Template>,
    room: usize,
    listed: &[&Finding],
) -> Result<usize, AllocError>
    ensures rows { OnOk result (string_bytes text.new ≡ string_bytes text.old
        ++ flat_map (said.row_text (option_map (λ link. link.now) link.entry))
        (said.fitting (option_map (λ link. link.now) link.entry) room
        (enumerate_from 0 (map (λ f. f.now) listed.now)))) }
    ensures count { IfOk result
        (λ n. n ≡ length (said.fitting (option_map (λ link. link.now) link.entry) room
        (enumerate_from 0 (map (λ f. f.now) listed.now)))) }
    ensures few { IfOk result (λ n. n ≤ length listed.now) }
{
    let mut left = room;
    let mut count = 0;
    for (index, finding) in listed.iter().enumerate() {
        let row = row_of(alloc, link, index, finding)?;
        if row.len() > left {
            return Ok(count);
        }
        text.push_str(row.as_str())?;
        left -= row.len();
        count += 1;
    }
    Ok(count)
}

/// The first results, as many as the table holds.
fn first_rows<'a, 'f>(listed: &'a [&'f Finding]) -> &'a [&'f Finding]
    ensures { result.now ≡ take said.most_rows listed.now }
{
    if listed.len() > MOST_ROWS {
        &listed[..MOST_ROWS]
    } else {
        listed
    }
}

/// Adds the rows of the first of these results, as many as the table holds and fit into `room` bytes. Returns how many
/// these are.
fn push_rows(
    alloc: Global,
    text: &mut String,
    link: Option<&Template>,
    room: usize,
    listed: &[&Finding],
) -> Result<usize, AllocError>
    ensures rows { OnOk result (string_bytes text.new ≡ string_bytes text.old
        ++ flat_map (said.row_text (option_map (λ link. link.now) link.entry))
        (said.rows_of (option_map (λ link. link.now) link.entry) room
        (map (λ f. f.now) listed.now))) }
    ensures count { IfOk result (λ n. n ≡ length
        (said.rows_of (option_map (λ link. link.now) link.entry) room
        (map (λ f. f.now) listed.now))) }
    ensures few { IfOk result (λ n. n ≤ length listed.now) }
{
    push_fitting(alloc, text, link, room, first_rows(listed))
}

/// How many of these results are hits.
fn hits_among(listed: &[&Finding]) -> usize
    ensures { result ≡ count_by (λ f. is_hit f.impact) (map (λ f. f.now) listed.now) }
{
    let mut count = 0;
    for finding in listed {
        if finding.impact.is_hit() {
            count += 1;
        }
    }
    count
}

/// Adds lines after an empty line, if there are any.
fn push_paragraph(text: &mut String, lines: &str) -> Result<(), AllocError>
    ensures { OnOk result
        (string_bytes text.new ≡ string_bytes text.old ++ said.paragraph lines.now) }
{
    if !lines.is_empty() {
        text.push_str("\n")?;
        text.push_str(lines)?;
    }
    Ok(())
}

/// Returns this sentence as a line, or nothing if the number that it is about is 0.
fn line_if(alloc: Global, number: usize, sentence: &str) -> Result<String, AllocError>
    ensures { IfOk result (λ s. string_bytes s ≡ said.line_if number sentence.now) }
{
    if number == 0 {
        return Ok(String::new(alloc));
    }
    format!(in alloc; "{sentence}\n")
}

/// The line on results that have no row, if there are any.
fn more_line(alloc: Global, count: usize, hits: usize) -> Result<String, AllocError>
    ensures { IfOk result (λ s. string_bytes s ≡ said.more_line count hits) }
{
    let sentence = more_text(alloc, count, hits)?;
    line_if(alloc, count, sentence.as_str())
}

/// The line on these results, which have no row.
fn others_line(alloc: Global, others: &[&Finding]) -> Result<String, AllocError>
    ensures { IfOk result
        (λ s. string_bytes s ≡ said.others_line (map (λ f. f.now) others.now)) }
{
    more_line(alloc, others.len(), hits_among(others))
}

/// The results after the first `count`.
fn after<'a, 'f>(listed: &'a [&'f Finding], count: usize) -> &'a [&'f Finding]
    requires { count ≤ length listed.now }
    ensures { result.now ≡ drop count listed.now }
{
    &listed[count..]
}

/// Adds the head of the table, if it has rows.
fn push_head(text: &mut String, rows: usize) -> Result<(), AllocError>
    ensures { OnOk result (string_bytes text.new ≡ string_bytes text.old ++ said.head_for rows) }
{
    if rows != 0 {
        text.push_str(RESULTS_HEAD)?;
    }
    Ok(())
}

/// Adds the table of results, whose rows have at most `room` bytes, and the line on those that have no row.
fn push_results(
    alloc: Global,
    text: &mut String,
    link: Option<&Template>,
    room: usize,
    findings: &[Finding],
) -> Result<(), AllocError>
    ensures { OnOk result (string_bytes text.new ≡ string_bytes text.old
        ++ said.results_table (option_map (λ link. link.now) link.entry) room findings.now) }
{
    let listed = list_findings(alloc, findings)?;
    let listed = listed.as_slice();
    let mut rows = String::new(alloc);
    let count = push_rows(alloc, &mut rows, link, room, listed)?;
    push_head(text, count)?;
    text.push_str(rows.as_str())?;
    let others = others_line(alloc, after(listed, count))?;
    push_paragraph(text, others.as_str())?;
    Ok(())
}

/// The line on accepting the hits, if there are any.
#[tactic(auto, unfolding(crate::specs::MarkdownReport::accept_line))]
fn accept_line(alloc: Global, hits: u32) -> Result<String, AllocError>
    ensures { IfOk result (λ s. string_bytes s ≡ said.accept_line hits) }
{
    let sentence = accept_text(alloc, hits, "`", "`")?;
    line_if(alloc, hits as usize, sentence.as_str())
}

/// The line on reported results that are not shown, if there are any.
#[tactic(auto, unfolding(crate::specs::MarkdownReport::unshown_line))]
fn unshown_line(alloc: Global, unshown: u32) -> Result<String, AllocError>
    ensures { IfOk result (λ s. string_bytes s ≡ said.unshown_line unshown) }
{
    let sentence = unshown_text(alloc, unshown)?;
    line_if(alloc, unshown as usize, sentence.as_str())
}

/// Adds the lines on results that are not shown and on accepting the hits, if there are any.
fn push_last(alloc: Global, text: &mut String, unshown: u32, hits: u32) -> Result<(), AllocError>
    ensures { OnOk result
        (string_bytes text.new ≡ string_bytes text.old ++ said.last_lines unshown hits) }
{
    let line = unshown_line(alloc, unshown)?;
    push_paragraph(text, line.as_str())?;
    push_accept(alloc, text, hits)?;
    Ok(())
}

/// Adds the line on accepting the hits, if there are any.
fn push_accept(alloc: Global, text: &mut String, hits: u32) -> Result<(), AllocError>
    ensures { OnOk result (string_bytes text.new
        ≡ string_bytes text.old ++ said.paragraph (said.accept_line hits)) }
{
    let accept = accept_line(alloc, hits)?;
    push_paragraph(text, accept.as_str())?;
    Ok(())
}

/// Returns the lines on what wasn't checked.
fn notes_of(alloc: Global, numbers: &Noted) -> Result<String, AllocError>
    ensures { IfOk result (λ s. string_bytes s ≡ said.notes numbers.now) }
{
    let runs = runs_text(alloc, numbers.without)?;
    let runs = line_if(alloc, numbers.without as usize, runs.as_str())?;
    let entries = entries_text(alloc, numbers.unused)?;
    let entries = line_if(alloc, numbers.unused as usize, entries.as_str())?;
    let filters = filters_text(alloc, numbers.filters)?;
    let filters = line_if(alloc, numbers.filters as usize, filters.as_str())?;
    let outside = outside_text(alloc, numbers.outside)?;
    let outside = line_if(alloc, numbers.outside as usize, outside.as_str())?;
    let unchecked = unchecked_text(alloc, numbers.unchecked)?;
    let unchecked = line_if(alloc, numbers.unchecked as usize, unchecked.as_str())?;
    format!(in alloc; "{runs}{entries}{filters}{outside}{unchecked}")
}

/// Adds the lines on what wasn't checked, if there are any.
fn push_notes(alloc: Global, text: &mut String, numbers: &Noted) -> Result<(), AllocError>
    ensures { OnOk result (string_bytes text.new
        ≡ string_bytes text.old ++ said.paragraph (said.notes numbers.now)) }
{
    let notes = notes_of(alloc, numbers)?;
    push_paragraph(text, notes.as_str())?;
    Ok(())
}

/// Returns the report for job summaries and comments on a change: the verdict, the counts, what wasn't checked, with a
/// policy a table of its conditions, and a table of the first listed results: at most 200, whose rows take at most 60,000
/// bytes together with those of the conditions. Rules link to their pages and places to their addresses; the rows of the
/// first 20 hits have a line of code. The whole report has at most 61,000 bytes, or 61,100 if the gate checks a change, or
/// 62,000 with a policy: fewer than a comment may have. Returns `AllocError` if memory for it runs out.
pub fn markdown_report(alloc: Global, told: &ReportInput<'_>) -> Result<String, AllocError>
    ensures text { IfOk result (λ s. string_bytes s ≡ said.markdown_of (facts_of told.now)) }
    ensures short { IfOk result (λ s. length (string_bytes s) ≤ most_of (facts_of told.now)) }
{
    let verdict = gate_verdict(told);
    let ending = gate_ending(alloc, told)?;
    let mut text = heading(alloc, verdict, ending.as_str())?;
    push_counts(alloc, &mut text, told.counts)?;
    let numbers = noted_in(told);
    push_notes(alloc, &mut text, &numbers)?;
    let room = push_conditions(alloc, &mut text, told.ruling)?;
    push_results(alloc, &mut text, told.link, room, told.findings)?;
    let unshown = unshown_results(told);
    let hits = gate_hits(told);
    push_last(alloc, &mut text, unshown, hits)?;
    Ok(text)
}

//! The rows of a page.
ghost use Rattle.std.specs.Prelude.{◌≡◌, ◌++◌, IfOk, OnOk, Some, option_map, string_bytes};
ghost use Rattle.std.specs.Fmt.{decimal};
ghost use Rattle.sarif_findings.specs.Finding.{numbered};
ghost use Rattle.sarif_page.specs.Internal.ByFile.{findings_in};
ghost use Rattle.sarif_page.specs.HtmlRow as said;

use crate::breaks::push_broken;
use crate::html_code::push_code;
use sarif_findings::Finding;
use sarif_links::Template;
use sarif_shown::{Escaping, place_link, push_numbered, push_path};
use std::alloc::{AllocError, Global};

fn hit_word(hit: bool) -> &'static str
    ensures { result.now ≡ said.hit_word hit }
{
    if hit { "yes" } else { "no" }
}

/// Adds the beginning of a row, with what it can be filtered by.
fn push_data(text: &mut String, level: &str, state: &str, hit: &str) -> Result<(), AllocError>
    ensures { OnOk result (string_bytes text.new
        ≡ string_bytes text.old ++ said.row_data level.now state.now hit.now) }
{
    text.push_str("<li data-level=\"")?;
    text.push_str(level)?;
    text.push_str("\" data-state=\"")?;
    text.push_str(state)?;
    text.push_str("\" data-hit=\"")?;
    text.push_str(hit)?;
    text.push_str("\">")?;
    Ok(())
}

/// Adds the beginning of the row of a result.
#[tactic(auto, unfolding(crate::specs::HtmlRow::row_front))]
fn push_front(text: &mut String, finding: &Finding) -> Result<(), AllocError>
    ensures { OnOk result
        (string_bytes text.new ≡ string_bytes text.old ++ said.row_front finding.now) }
{
    let hit = hit_word(finding.impact.is_hit());
    push_data(text, finding.level.name(), finding.state.name(), hit)?;
    Ok(())
}

/// Adds the title of a link, if it has one.
fn push_title(alloc: Global, text: &mut String, name: Option<&str>) -> Result<(), AllocError>
    ensures { OnOk result (string_bytes text.new
        ≡ string_bytes text.old ++ said.title_of (option_map (λ name. name.now) name.entry)) }
{
    if let Some(name) = name {
        text.push_str(" title=\"")?;
        Escaping::Page.push_str(alloc, text, name)?;
        text.push_str("\"")?;
    }
    Ok(())
}

/// Adds the beginning of a link to this address.
#[tactic(auto, unfolding(crate::specs::HtmlRow::link_begin))]
fn push_link_begin(
    alloc: Global,
    text: &mut String,
    address: &str,
    name: Option<&str>,
) -> Result<(), AllocError>
    ensures { OnOk result (string_bytes text.new ≡ string_bytes text.old
        ++ said.link_begin address.now (option_map (λ name. name.now) name.entry)) }
{
    text.push_str("<a href=\"")?;
    Escaping::Page.push_str(alloc, text, address)?;
    text.push_str("\"")?;
    push_title(alloc, text, name)?;
    text.push_str(" rel=\"noopener noreferrer\">")?;
    Ok(())
}

/// The line, and the column if it is known.
fn position(alloc: Global, line: u32, column: Option<u32>) -> Result<String, AllocError>
    ensures { IfOk result (λ s. string_bytes s ≡ decimal line ++ numbered column) }
{
    let mut text = format!(in alloc; "{line}")?;
    push_numbered(&mut text, column)?;
    Ok(text)
}

/// Adds a path and a place in it.
fn push_spot_at(
    alloc: Global,
    text: &mut String,
    path: &str,
    position: &str,
) -> Result<(), AllocError>
    ensures { OnOk result (string_bytes text.new ≡ string_bytes text.old
        ++ said.spot_at path.now position.now) }
{
    text.push_str("<code><i>")?;
    Escaping::Page.push_str(alloc, text, path)?;
    text.push_str(":</i>")?;
    Escaping::Page.push_str(alloc, text, position)?;
    text.push_str("</code>")?;
    Ok(())
}

/// Adds a path without a line.
fn push_whole_file(alloc: Global, text: &mut String, path: &str) -> Result<(), AllocError>
    ensures { OnOk result
        (string_bytes text.new ≡ string_bytes text.old ++ said.whole_file path.now) }
{
    text.push_str("<code class=\"all\"><i>")?;
    Escaping::Page.push_str(alloc, text, path)?;
    text.push_str("</i></code>")?;
    Ok(())
}

/// Adds a path, and the line and the column in it as far as they are known.
fn push_spot(
    alloc: Global,
    text: &mut String,
    path: &str,
    line: Option<u32>,
    column: Option<u32>,
) -> Result<(), AllocError>
    ensures { OnOk result (string_bytes text.new ≡ string_bytes text.old
        ++ said.spot_in path.now line column) }
{
    let mut place = String::new(alloc);
    push_path(&mut place, path)?;
    let Some(line) = line else {
        push_numbered(&mut place, column)?;
        return push_whole_file(alloc, text, place.as_str());
    };
    let position = position(alloc, line, column)?;
    push_spot_at(alloc, text, place.as_str(), position.as_str())?;
    Ok(())
}

/// Adds the place.
fn push_place(alloc: Global, text: &mut String, finding: &Finding) -> Result<(), AllocError>
    ensures { OnOk result
        (string_bytes text.new ≡ string_bytes text.old ++ said.place_text finding.now) }
{
    match &finding.path {
        None => text.push_str("<code>-</code>")?,
        Some(path) => push_spot(alloc, text, path.as_str(), finding.line, finding.column)?,
    }
    Ok(())
}

/// Adds the place in a link to this address.
fn push_place_link(
    alloc: Global,
    text: &mut String,
    address: &str,
    finding: &Finding,
) -> Result<(), AllocError>
    ensures { OnOk result (string_bytes text.new ≡ string_bytes text.old
        ++ said.linked_place (Some address.now) finding.now) }
{
    push_link_begin(alloc, text, address, None)?;
    push_place(alloc, text, finding)?;
    text.push_str("</a>")?;
    Ok(())
}

/// Adds the place, which links to its address if there is one.
fn push_place_cell(
    alloc: Global,
    text: &mut String,
    link: Option<&Template>,
    finding: &Finding,
) -> Result<(), AllocError>
    ensures { OnOk result (string_bytes text.new ≡ string_bytes text.old
        ++ said.place_cell (option_map (λ link. link.now) link.entry) finding.now) }
{
    match place_link(alloc, link, finding)? {
        Some(address) => push_place_link(alloc, text, address.as_str(), finding)?,
        None => push_place(alloc, text, finding)?,
    }
    Ok(())
}

/// Adds a rule as code.
fn push_rule_code(text: &mut String, rule: &str) -> Result<(), AllocError>
    ensures { OnOk result
        (string_bytes text.new ≡ string_bytes text.old ++ said.rule_code rule.now) }
{
    text.push_str("<code>")?;
    push_broken(text, rule)?;
    text.push_str("</code>")?;
    Ok(())
}

/// Adds the beginning of a link to the page of a rule, with its name if it has one.
fn push_rule_begin(
    alloc: Global,
    text: &mut String,
    address: &str,
    finding: &Finding,
) -> Result<(), AllocError>
    ensures { OnOk result (string_bytes text.new ≡ string_bytes text.old
        ++ said.link_begin address.now finding.now.rule_name) }
{
    match &finding.rule_name {
        Some(name) => push_link_begin(alloc, text, address, Some(name.as_str()))?,
        None => push_link_begin(alloc, text, address, None)?,
    }
    Ok(())
}

/// Adds the rule of a result in a link to its page.
fn push_rule_link(
    alloc: Global,
    text: &mut String,
    address: &str,
    finding: &Finding,
) -> Result<(), AllocError>
    ensures { OnOk result (string_bytes text.new ≡ string_bytes text.old
        ++ said.linked finding.now.rule (Some address.now) finding.now.rule_name) }
{
    push_rule_begin(alloc, text, address, finding)?;
    push_rule_code(text, finding.rule.as_str())?;
    text.push_str("</a>")?;
    Ok(())
}

/// Adds the rule of a result, which links to its page if there is one.
pub(crate) fn push_linked(
    alloc: Global,
    text: &mut String,
    finding: &Finding,
) -> Result<(), AllocError>
    ensures { OnOk result (string_bytes text.new ≡ string_bytes text.old
        ++ said.linked finding.now.rule finding.now.help finding.now.rule_name) }
{
    match &finding.help {
        None => push_rule_code(text, finding.rule.as_str())?,
        Some(address) => push_rule_link(alloc, text, address.as_str(), finding)?,
    }
    Ok(())
}

/// Adds the rule, if there is one.
fn push_rule(alloc: Global, text: &mut String, finding: &Finding) -> Result<(), AllocError>
    ensures { OnOk result (string_bytes text.new ≡ string_bytes text.old
        ++ said.rule_cell finding.now.rule finding.now.help finding.now.rule_name) }
{
    if finding.rule.as_str().is_empty() {
        return Ok(());
    }
    push_linked(alloc, text, finding)?;
    text.push_str(" ")?;
    Ok(())
}

/// Adds a level or a state.
fn push_bold(text: &mut String, name: &str) -> Result<(), AllocError>
    ensures { OnOk result (string_bytes text.new ≡ string_bytes text.old ++ said.bold name.now) }
{
    text.push_str("<b>")?;
    text.push_str(name)?;
    text.push_str("</b> ")?;
    Ok(())
}

/// Adds the level, the message and the code of a row.
#[tactic(auto, unfolding(crate::specs::HtmlRow::message_cells))]
fn push_message_cells(alloc: Global, text: &mut String, finding: &Finding) -> Result<(), AllocError>
    ensures { OnOk result
        (string_bytes text.new ≡ string_bytes text.old ++ said.message_cells finding.now) }
{
    text.push_str(" ")?;
    push_bold(text, finding.level.name())?;
    text.push_str("<p>")?;
    Escaping::Page.push_str(alloc, text, finding.message.as_str())?;
    text.push_str("</p>")?;
    push_code(alloc, text, finding)?;
    text.push_str(" <div>")?;
    Ok(())
}

/// Adds the state and the tool of a row, and ends it.
#[tactic(auto, unfolding(crate::specs::HtmlRow::tool_cells))]
fn push_tool_cells(alloc: Global, text: &mut String, finding: &Finding) -> Result<(), AllocError>
    ensures { OnOk result
        (string_bytes text.new ≡ string_bytes text.old ++ said.tool_cells finding.now) }
{
    text.push_str("<span>")?;
    push_bold(text, finding.state.name())?;
    Escaping::Page.push_str(alloc, text, finding.tool.as_str())?;
    text.push_str("</span></div></li>\n")?;
    Ok(())
}

/// Adds the row of a result.
#[tactic(auto, unfolding(crate::specs::HtmlRow::result_row))]
fn push_row(
    alloc: Global,
    text: &mut String,
    link: Option<&Template>,
    finding: &Finding,
) -> Result<(), AllocError>
    ensures { OnOk result (string_bytes text.new ≡ string_bytes text.old
        ++ said.result_row (option_map (λ link. link.now) link.entry) finding.now) }
{
    push_front(text, finding)?;
    push_place_cell(alloc, text, link, finding)?;
    push_message_cells(alloc, text, finding)?;
    push_rule(alloc, text, finding)?;
    push_tool_cells(alloc, text, finding)?;
    Ok(())
}

/// Adds the rows of these results. Places link to their addresses by this template, if there is one.
pub(crate) fn push_rows(
    alloc: Global,
    text: &mut String,
    link: Option<&Template>,
    rows: &[&Finding],
) -> Result<(), AllocError>
    ensures { OnOk result (string_bytes text.new ≡ string_bytes text.old
        ++ said.rows_html (option_map (λ link. link.now) link.entry) (findings_in rows.now)) }
{
    for row in rows {
        push_row(alloc, text, link, row)?;
    }
    Ok(())
}

/// Adds the path of a result, or that it has none.
fn push_path_of(text: &mut String, finding: &Finding) -> Result<(), AllocError>
    ensures { OnOk result (string_bytes text.new
        ≡ string_bytes text.old ++ said.path_text finding.now.path) }
{
    match &finding.path {
        None => text.push_str("No path")?,
        Some(path) => push_broken(text, path.as_str())?,
    }
    Ok(())
}

/// Adds the path of these rows.
pub(crate) fn push_file(text: &mut String, rows: &[&Finding]) -> Result<(), AllocError>
    ensures { OnOk result
        (string_bytes text.new ≡ string_bytes text.old ++ said.file_text (findings_in rows.now)) }
{
    if let [first, ..] = rows {
        push_path_of(text, first)?;
    }
    Ok(())
}

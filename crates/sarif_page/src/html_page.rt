//! The page of a merge.
ghost use Rattle.std.specs.Prelude.{◌≡◌, ◌<◌, ◌+◌, ◌^◌, ◌++◌, ◌==◌, length, IfOk, OnOk, option_map, string_bytes, if◌then◌else◌};
ghost use Rattle.sarif_page.specs.Internal.ByFile.{findings_in};
ghost use Rattle.sarif_page.specs.Internal.Lists.{tables_in};
ghost use Rattle.sarif_shown.specs.Facts.{facts_of};
ghost use Rattle.sarif_shown.specs.Sentences as sentences;
ghost use Rattle.sarif_page.specs.HtmlGroups.{section_if};
ghost use Rattle.sarif_page.specs.HtmlReport as said;
ghost use Rattle.sarif_page.specs.HtmlRows.{groups_of};

use crate::html_conditions::push_conditions;
use crate::html_counts::push_counts;
use crate::html_filters::push_filters;
use crate::html_fixed::{
    body_begin, header_end, nothing_reported, page_begin, page_end, title_end,
};
use crate::html_lists::{List, MOST_OPEN, push_section};
use crate::html_style::{push_style, tables_style};
use crate::html_tables::{Rows, rows_of};
use crate::html_words::{hits_heading, others_text, reason_by};
use crate::rules::Index;
use sarif_conditions::PolicyFacts;
use sarif_counts::Verdict;
use sarif_findings::Finding;
use sarif_options::Policy;
use sarif_scope::ChangeFacts;
use sarif_shown::{
    Noted, ReportInput, Stopping, accept_text, entries_text, filters_text, gate_ending, gate_hits,
    gate_stopping, gate_text, gate_verdict, hits_text, more_text, noted_in, outside_text,
    runs_text, unchecked_text, unshown_results, unshown_text,
};
use std::alloc::{AllocError, Global};

/// The style of the table of conditions, if there is one.
fn style_by(ruling: Option<&PolicyFacts>) -> &'static str
    ensures { result.now ≡ said.style_by (option_map (λ ruling. ruling.now) ruling.entry) }
{
    match ruling {
        None => "",
        Some(_) => tables_style(),
    }
}

/// Adds the page up to its heading.
#[tactic(auto, unfolding(crate::specs::HtmlReport::page_head))]
fn push_head(
    alloc: Global,
    text: &mut String,
    ruling: Option<&PolicyFacts>,
    verdict: Verdict,
    end: &str,
) -> Result<(), AllocError>
    ensures { OnOk result (string_bytes text.new ≡ string_bytes text.old
        ++ said.page_head (option_map (λ ruling. ruling.now) ruling.entry) verdict end.now) }
{
    let title = gate_text(alloc, verdict, end)?;
    text.push_str(page_begin())?;
    text.push_str(title.as_str())?;
    text.push_str(title_end())?;
    push_style(text)?;
    text.push_str(style_by(ruling))?;
    text.push_str(body_begin())?;
    Ok(())
}

#[tactic(auto, unfolding(crate::specs::HtmlReport::heading))]
fn heading(alloc: Global, verdict: Verdict, end: &str) -> Result<String, AllocError>
    ensures { IfOk result (λ s. string_bytes s ≡ said.heading verdict end.now) }
{
    let word = verdict.name();
    format!(in alloc; "<h1 class=\"{word}\">Gate: {word}<span>{end}</span></h1>\n")
}

#[tactic(auto, unfolding(crate::specs::HtmlReport::reason_line))]
fn reason_line(
    alloc: Global,
    ruling: Option<&PolicyFacts>,
    policy: &Policy,
    change: &Option<ChangeFacts>,
) -> Result<String, AllocError>
    ensures { IfOk result (λ s. string_bytes s ≡ said.reason_line
        (option_map (λ ruling. ruling.now) ruling.entry) policy.now change.now) }
{
    let reason = reason_by(alloc, ruling, policy, change)?;
    format!(in alloc; "<p>{reason}</p>\n")
}

/// Adds the verdict, up to the links.
#[tactic(auto, unfolding(crate::specs::HtmlReport::top_of))]
fn push_top(alloc: Global, text: &mut String, told: &ReportInput<'_>) -> Result<(), AllocError>
    ensures { OnOk result (string_bytes text.new
        ≡ string_bytes text.old ++ said.top_of (facts_of told.now)) }
{
    let verdict = gate_verdict(told);
    let end = gate_ending(alloc, told)?;
    push_head(alloc, text, told.ruling, verdict, end.as_str())?;
    let heading = heading(alloc, verdict, end.as_str())?;
    let reason = reason_line(alloc, told.ruling, told.policy, &told.change)?;
    text.push_str(heading.as_str())?;
    text.push_str(reason.as_str())?;
    Ok(())
}

/// Links to the two lists.
#[tactic(auto, unfolding(crate::specs::HtmlReport::links_to))]
fn links_to(alloc: Global, hits: usize, others: usize) -> Result<String, AllocError>
    ensures { IfOk result (λ s. string_bytes s ≡ said.links_to hits others) }
{
    let hits = hits_text(alloc, hits)?;
    let others = others_text(alloc, others)?;
    format!(in alloc;
        "<nav aria-label=\"Results\"><a href=\"#hits\">{hits}</a> <a href=\"#others\">{others}</a></nav>\n"
    )
}

/// Adds links to the two lists, if there are both.
#[tactic(auto, unfolding(crate::specs::HtmlReport::links))]
fn push_links(alloc: Global, text: &mut String, rows: &Rows<'_>) -> Result<(), AllocError>
    ensures { OnOk result
        (string_bytes text.new ≡ string_bytes text.old ++ said.links (tables_in rows.now)) }
{
    if rows.hits.is_empty() || rows.others.is_empty() {
        return Ok(());
    }
    let links = links_to(alloc, rows.all_hits, rows.all_others)?;
    text.push_str(links.as_str())?;
    Ok(())
}

/// A sentence that the reader has to know.
#[tactic(auto, unfolding(crate::specs::HtmlReport::mind))]
fn mind(alloc: Global, sentence: &str) -> Result<String, AllocError>
    ensures { IfOk result (λ s. string_bytes s ≡ said.mind sentence.now) }
{
    format!(in alloc; "<p class=\"mind\">{sentence}</p>\n")
}

/// Adds how many input runs have no results, if there are any.
fn push_runs(alloc: Global, text: &mut String, without: u32) -> Result<(), AllocError>
    ensures { OnOk result (string_bytes text.new
        ≡ string_bytes text.old ++ said.mind_if without (sentences.runs_text without)) }
{
    if without != 0 {
        let sentence = runs_text(alloc, without)?;
        let line = mind(alloc, sentence.as_str())?;
        text.push_str(line.as_str())?;
    }
    Ok(())
}

/// Adds how many suppression entries match nothing, if there are any.
fn push_entries(alloc: Global, text: &mut String, unused: u32) -> Result<(), AllocError>
    ensures { OnOk result (string_bytes text.new
        ≡ string_bytes text.old ++ said.mind_if unused (sentences.entries_text unused)) }
{
    if unused != 0 {
        let sentence = entries_text(alloc, unused)?;
        let line = mind(alloc, sentence.as_str())?;
        text.push_str(line.as_str())?;
    }
    Ok(())
}

/// Adds how many filters of a policy match nothing, if there are any.
fn push_unused_filters(alloc: Global, text: &mut String, filters: u32) -> Result<(), AllocError>
    ensures { OnOk result (string_bytes text.new
        ≡ string_bytes text.old ++ said.mind_if filters (sentences.filters_text filters)) }
{
    if filters != 0 {
        let sentence = filters_text(alloc, filters)?;
        let line = mind(alloc, sentence.as_str())?;
        text.push_str(line.as_str())?;
    }
    Ok(())
}

/// Adds how many results outside of the change would be hits, if there are any.
fn push_outside(alloc: Global, text: &mut String, outside: u32) -> Result<(), AllocError>
    ensures { OnOk result (string_bytes text.new
        ≡ string_bytes text.old ++ said.mind_if outside (sentences.outside_text outside)) }
{
    if outside != 0 {
        let sentence = outside_text(alloc, outside)?;
        let line = mind(alloc, sentence.as_str())?;
        text.push_str(line.as_str())?;
    }
    Ok(())
}

/// Adds how many results no condition checks, if there are any.
fn push_unchecked(alloc: Global, text: &mut String, unchecked: u32) -> Result<(), AllocError>
    ensures { OnOk result (string_bytes text.new
        ≡ string_bytes text.old ++ said.mind_if unchecked (sentences.unchecked_text unchecked)) }
{
    if unchecked != 0 {
        let sentence = unchecked_text(alloc, unchecked)?;
        let line = mind(alloc, sentence.as_str())?;
        text.push_str(line.as_str())?;
    }
    Ok(())
}

/// Adds the sentences on what wasn't checked.
#[tactic(auto, unfolding(crate::specs::HtmlReport::minds))]
fn push_minds(alloc: Global, text: &mut String, numbers: &Noted) -> Result<(), AllocError>
    ensures { OnOk result
        (string_bytes text.new ≡ string_bytes text.old ++ said.minds numbers.now) }
{
    push_runs(alloc, text, numbers.without)?;
    push_entries(alloc, text, numbers.unused)?;
    push_unused_filters(alloc, text, numbers.filters)?;
    push_outside(alloc, text, numbers.outside)?;
    push_unchecked(alloc, text, numbers.unchecked)?;
    Ok(())
}

/// Adds how many results have no row, if some have none.
#[tactic(auto, unfolding(crate::specs::HtmlReport::more_line))]
fn push_more(alloc: Global, text: &mut String, more: usize, hits: usize) -> Result<(), AllocError>
    ensures { OnOk result
        (string_bytes text.new ≡ string_bytes text.old ++ said.more_line more hits) }
{
    if more != 0 {
        let sentence = more_text(alloc, more, hits)?;
        let line = mind(alloc, sentence.as_str())?;
        text.push_str(line.as_str())?;
    }
    Ok(())
}

/// Adds that nothing is reported, if that is so and not only nothing is shown.
fn push_nothing(text: &mut String, unshown: u32) -> Result<(), AllocError>
    ensures { OnOk result
        (string_bytes text.new ≡ string_bytes text.old ++ said.nothing_line unshown) }
{
    if unshown == 0 {
        text.push_str(nothing_reported())?;
    }
    Ok(())
}

/// Adds that nothing is reported, or how many results have no row.
#[tactic(auto, unfolding(crate::specs::HtmlReport::rest_line))]
fn push_rest(
    alloc: Global,
    text: &mut String,
    rows: &Rows<'_>,
    unshown: u32,
) -> Result<(), AllocError>
    requires { rows.now.all_hits + rows.now.all_others < 2 ^ 64 }
    ensures { OnOk result (string_bytes text.new
        ≡ string_bytes text.old ++ said.rest_line unshown (tables_in rows.now)) }
{
    let is_empty = rows.all_hits == 0 && rows.all_others == 0;
    if is_empty {
        return push_nothing(text, unshown);
    }
    let hits = rows.all_hits.saturating_sub(rows.hits.len());
    let others = rows.all_others.saturating_sub(rows.others.len());
    push_more(alloc, text, hits + others, hits)?;
    Ok(())
}

/// The rules of the others: there is an index only if they are the first list.
fn others_index<'a, 'f>(rows: &'a Rows<'f>, none: &'a Index<'f>) -> &'a Index<'f>
    ensures { result.now
        ≡ (if length (tables_in rows.now).hits == 0 then rows.now.index else none.now) }
{
    if rows.hits.is_empty() {
        &rows.index
    } else {
        none
    }
}

/// The room for open groups in the others: there is some if they are the first list.
fn others_room(hits: &[&Finding]) -> usize
    ensures { result ≡ said.others_room (findings_in hits.now) }
{
    if hits.is_empty() { MOST_OPEN } else { 0 }
}

/// Adds the list of hits. Returns how many groups it has.
fn push_hit_list(
    alloc: Global,
    text: &mut String,
    stopping: Stopping,
    max: u32,
    rows: &Rows<'_>,
) -> Result<usize, AllocError>
    ensures list { OnOk result (string_bytes text.new ≡ string_bytes text.old
        ++ section_if (said.hits_part stopping max (tables_in rows.now)) (tables_in rows.now).hits) }
    ensures number { IfOk result (λ n. n ≡ length (groups_of (tables_in rows.now).hits)) }
    ensures few { IfOk result (λ n. n < 2 ^ 61) }
{
    let heading = hits_heading(alloc, stopping, rows.marked, rows.all_hits, max)?;
    let list = List {
        name: "hits",
        heading: heading.as_str(),
        link: rows.link,
        room: MOST_OPEN,
        number: 1,
        index: &rows.index,
    };
    push_section(alloc, text, rows.seed, &list, &rows.hits)
}

/// Adds the list of the others, after this number of groups.
fn push_other_list(
    alloc: Global,
    text: &mut String,
    before: usize,
    rows: &Rows<'_>,
) -> Result<(), AllocError>
    requires groups { before ≡ length (groups_of (tables_in rows.now).hits) }
    requires few { before < 2 ^ 61 }
    ensures { OnOk result (string_bytes text.new ≡ string_bytes text.old
        ++ section_if (said.others_part (tables_in rows.now)) (tables_in rows.now).others) }
{
    let heading = others_text(alloc, rows.all_others)?;
    let none = Index::empty(alloc, rows.index.all);
    let list = List {
        name: "others",
        heading: heading.as_str(),
        link: rows.link,
        room: others_room(&rows.hits),
        number: before + 1,
        index: others_index(rows, &none),
    };
    push_section(alloc, text, rows.seed, &list, &rows.others)?;
    Ok(())
}

/// Adds the lists.
#[tactic(auto, unfolding(crate::specs::HtmlReport::sections))]
fn push_sections(
    alloc: Global,
    text: &mut String,
    stopping: Stopping,
    max: u32,
    rows: &Rows<'_>,
) -> Result<(), AllocError>
    ensures { OnOk result (string_bytes text.new
        ≡ string_bytes text.old ++ said.sections stopping max (tables_in rows.now)) }
{
    let before = push_hit_list(alloc, text, stopping, max, rows)?;
    push_other_list(alloc, text, before, rows)?;
    Ok(())
}

/// Adds how many reported results are not shown, if there are any.
#[tactic(auto, unfolding(crate::specs::HtmlReport::unshown_line))]
fn push_unshown(alloc: Global, text: &mut String, unshown: u32) -> Result<(), AllocError>
    ensures { OnOk result
        (string_bytes text.new ≡ string_bytes text.old ++ said.unshown_line unshown) }
{
    if unshown != 0 {
        let sentence = unshown_text(alloc, unshown)?;
        let line = mind(alloc, sentence.as_str())?;
        text.push_str(line.as_str())?;
    }
    Ok(())
}

/// Adds the boxes, the lists and the sentences on what has no row.
#[tactic(auto, unfolding(crate::specs::HtmlReport::results_of))]
fn push_results(
    alloc: Global,
    text: &mut String,
    stopping: Stopping,
    max: u32,
    rows: &Rows<'_>,
    unshown: u32,
) -> Result<(), AllocError>
    requires { rows.now.all_hits + rows.now.all_others < 2 ^ 64 }
    ensures { OnOk result (string_bytes text.new ≡ string_bytes text.old
        ++ said.results_of stopping max (tables_in rows.now) unshown) }
{
    push_filters(alloc, text, rows)?;
    push_sections(alloc, text, stopping, max, rows)?;
    push_rest(alloc, text, rows, unshown)?;
    push_unshown(alloc, text, unshown)?;
    Ok(())
}

/// A sentence that says how something is done.
#[tactic(auto, unfolding(crate::specs::HtmlReport::how))]
fn how(alloc: Global, sentence: &str) -> Result<String, AllocError>
    ensures { IfOk result (λ s. string_bytes s ≡ said.how sentence.now) }
{
    format!(in alloc; "<p class=\"how\">{sentence}</p>\n")
}

/// Adds how to accept the hits, if there are any.
fn push_accept(alloc: Global, text: &mut String, hits: u32) -> Result<(), AllocError>
    ensures { OnOk result
        (string_bytes text.new ≡ string_bytes text.old ++ said.accept_line hits) }
{
    if hits != 0 {
        let sentence = accept_text(alloc, hits, "<code>", "</code>")?;
        let line = how(alloc, sentence.as_str())?;
        text.push_str(line.as_str())?;
    }
    Ok(())
}

/// The options by which cells of the counts are marked: with a policy there are none.
fn marks_by<'a>(ruling: Option<&PolicyFacts>, policy: &'a Policy) -> Option<&'a Policy>
    ensures { option_map (λ marks. marks.now) result
        ≡ said.marks_by (option_map (λ ruling. ruling.now) ruling.entry) policy.now }
{
    match ruling {
        None => Some(policy),
        Some(_) => None,
    }
}

/// Adds what is below the counts, up to the results.
#[tactic(auto, unfolding(crate::specs::HtmlReport::below_counts))]
fn push_below_counts(
    alloc: Global,
    text: &mut String,
    told: &ReportInput<'_>,
) -> Result<(), AllocError>
    ensures { OnOk result (string_bytes text.new
        ≡ string_bytes text.old ++ said.below_counts (facts_of told.now)) }
{
    let numbers = noted_in(told);
    push_minds(alloc, text, &numbers)?;
    push_conditions(alloc, text, told.ruling)?;
    text.push_str(header_end())?;
    Ok(())
}

/// Returns the page: the verdict, the counts, with a policy its conditions, and a row for each of the first 10,000 shown
/// results, the hits before the others, by file. Returns `AllocError` if memory for it runs out.
#[tactic(auto, unfolding(crate::specs::HtmlReport::html_of, crate::specs::HtmlReport::page_of))]
pub fn html_report(alloc: Global, told: &ReportInput<'_>) -> Result<String, AllocError>
    ensures { IfOk result (λ s. string_bytes s ≡ said.html_of (facts_of told.now)) }
{
    let rows = rows_of(alloc, told.seed, told.link, told.findings)?;
    let mut text = String::new(alloc);
    push_top(alloc, &mut text, told)?;
    push_links(alloc, &mut text, &rows)?;
    let marks = marks_by(told.ruling, told.policy);
    push_counts(alloc, &mut text, told.counts, marks)?;
    push_below_counts(alloc, &mut text, told)?;
    let (stopping, unshown) = (gate_stopping(told), unshown_results(told));
    push_results(alloc, &mut text, stopping, told.policy.max, &rows, unshown)?;
    let hits = gate_hits(told);
    push_accept(alloc, &mut text, hits)?;
    text.push_str(page_end())?;
    Ok(text)
}

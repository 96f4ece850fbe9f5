//! The lists of a page: hits, and other results.
ghost use Rattle.std.specs.Prelude.{◌≡◌, ◌<◌, ◌≤◌, ◌+◌, ◌^◌, ◌++◌, length, take, drop, IfOk, OnOk, option_map, string_bytes};
ghost use Rattle.sarif_page.specs.Internal.ByFile.{findings_in};
ghost use Rattle.sarif_page.specs.Internal.Groups.{groups_in};
ghost use Rattle.sarif_page.specs.Internal.Lists.{part_in};
ghost use Rattle.sarif_page.specs.HtmlGroups as said;
ghost use Rattle.sarif_page.specs.HtmlRows.{grouped_rows, groups_of as groups_in_rows};

use crate::groups::{Group, groups_of, rows_by_file};
use crate::html_fixed::gone_line;
use crate::html_groups::{numbers_text, push_groups, push_has};
use crate::html_index::push_index;
use crate::rules::Index;
use sarif_findings::Finding;
use sarif_links::Template;
use sarif_shown::count_text;
use std::alloc::{AllocError, Global};
use std::hash::RandomState;

/// The maximum number of groups that a list shows as it opens.
const MOST_GROUPS: usize = 100;

/// No group of a first list is open below this number of rows.
pub(crate) const MOST_OPEN: usize = 20;

/// A list of a page without its rows.
#[derive(Clone, Copy)]
pub(crate) struct List<'n, 'f> {
    /// The name of its section.
    pub(crate) name: &'n str,
    /// Its heading.
    pub(crate) heading: &'n str,
    /// The template by which its places are linked, if they are.
    pub(crate) link: Option<&'n Template>,
    /// Its groups are open up to this number of rows.
    pub(crate) room: usize,
    /// The number of its first group.
    pub(crate) number: usize,
    /// Its rules, if it has an index.
    pub(crate) index: &'n Index<'f>,
}

/// The first groups, which a list shows as it opens.
fn first_groups<'a, 'g, 'f>(groups: &'a [Group<'g, 'f>]) -> &'a [Group<'g, 'f>]
    ensures { result.now ≡ take said.most_groups groups.now }
{
    if groups.len() > MOST_GROUPS {
        &groups[..MOST_GROUPS]
    } else {
        groups
    }
}

/// The groups after the first ones.
fn later_groups<'a, 'g, 'f>(groups: &'a [Group<'g, 'f>]) -> &'a [Group<'g, 'f>]
    ensures { result.now ≡ drop said.most_groups groups.now }
{
    if groups.len() > MOST_GROUPS {
        &groups[MOST_GROUPS..]
    } else {
        &groups[..0]
    }
}

/// The rows of these groups.
fn rows_of_groups<'f>(
    alloc: Global,
    groups: &[Group<'_, 'f>],
) -> Result<Vec<&'f Finding>, AllocError>
    ensures { IfOk result
        (λ rows. findings_in rows.items ≡ grouped_rows (groups_in groups.now)) }
{
    let mut rows = Vec::new(alloc);
    for group in groups {
        rows.extend_from_slice(group.rows)?;
    }
    Ok(rows)
}

/// How many results the groups after the first ones have.
fn more_results(alloc: Global, rows: &[&Finding]) -> Result<String, AllocError>
    ensures { IfOk result
        (λ s. string_bytes s ≡ said.more_results (length (findings_in rows.now))) }
{
    count_text(alloc, rows.len(), " more result", " more results")
}

/// The attribute by which the boxes show what has one of these rows.
fn has_text(alloc: Global, rows: &[&Finding]) -> Result<String, AllocError>
    ensures { IfOk result (λ s. string_bytes s ≡ said.has_data (findings_in rows.now)) }
{
    let mut text = String::new(alloc);
    push_has(&mut text, rows)?;
    Ok(text)
}

/// The beginning of what holds the groups after the first ones, with these rows.
fn more_begin(alloc: Global, rows: &[&Finding]) -> Result<String, AllocError>
    ensures { IfOk result (λ s. string_bytes s ≡ said.more_begin (findings_in rows.now)) }
{
    let has = has_text(alloc, rows)?;
    let results = more_results(alloc, rows)?;
    let numbers = numbers_text(alloc, rows)?;
    format!(in alloc; "<details{has}><summary>{results} <span>{numbers}</span></summary>\n")
}

/// Adds these groups within one more.
#[tactic(auto, unfolding(crate::specs::HtmlGroups::more_of))]
fn push_more(
    alloc: Global,
    text: &mut String,
    link: Option<&Template>,
    number: usize,
    groups: &[Group<'_, '_>],
) -> Result<(), AllocError>
    requires { number + length groups.now < 2 ^ 64 }
    ensures { OnOk result (string_bytes text.new ≡ string_bytes text.old
        ++ said.more_of (option_map (λ link. link.now) link.entry) number (groups_in groups.now)) }
{
    let rows = rows_of_groups(alloc, groups)?;
    let begin = more_begin(alloc, &rows)?;
    text.push_str(begin.as_str())?;
    push_groups(alloc, text, link, 0, number, groups)?;
    text.push_str("</details>\n")?;
    Ok(())
}

/// Adds the groups after the first ones, if there are any.
fn push_more_groups(
    alloc: Global,
    text: &mut String,
    link: Option<&Template>,
    number: usize,
    groups: &[Group<'_, '_>],
) -> Result<(), AllocError>
    requires { number + length groups.now < 2 ^ 64 }
    ensures { OnOk result (string_bytes text.new ≡ string_bytes text.old
        ++ said.more_groups (option_map (λ link. link.now) link.entry) number
        (groups_in groups.now)) }
{
    if groups.is_empty() {
        return Ok(());
    }
    push_more(alloc, text, link, number, groups)
}

/// Adds the groups of a list.
#[tactic(auto, unfolding(crate::specs::HtmlGroups::list_html))]
fn push_list(
    alloc: Global,
    text: &mut String,
    link: Option<&Template>,
    room: usize,
    number: usize,
    groups: &[Group<'_, '_>],
) -> Result<(), AllocError>
    requires { number + length groups.now < 2 ^ 63 }
    ensures { OnOk result (string_bytes text.new ≡ string_bytes text.old
        ++ said.list_html (option_map (λ link. link.now) link.entry) room number
        (groups_in groups.now)) }
{
    push_groups(alloc, text, link, room, number, first_groups(groups))?;
    push_more_groups(
        alloc,
        text,
        link,
        number + MOST_GROUPS,
        later_groups(groups),
    )?;
    Ok(())
}

/// Adds the beginning of the section of a list, up to its groups.
fn push_section_begin(
    text: &mut String,
    name: &str,
    heading: &str,
    rows: &[&Finding],
) -> Result<(), AllocError>
    ensures { OnOk result (string_bytes text.new ≡ string_bytes text.old
        ++ said.section_begin name.now heading.now (findings_in rows.now)) }
{
    text.push_str("<section aria-labelledby=\"")?;
    text.push_str(name)?;
    text.push_str("\"")?;
    push_has(text, rows)?;
    text.push_str(">\n<h2 id=\"")?;
    text.push_str(name)?;
    text.push_str("\">")?;
    text.push_str(heading)?;
    text.push_str("</h2>\n")?;
    text.push_str(gone_line())?;
    Ok(())
}

/// Adds the index and the groups of a list.
#[tactic(auto, unfolding(crate::specs::HtmlGroups::section_middle))]
fn push_section_middle(
    alloc: Global,
    text: &mut String,
    list: &List<'_, '_>,
    groups: &[Group<'_, '_>],
) -> Result<(), AllocError>
    requires { list.now.number + length groups.now < 2 ^ 63 }
    ensures { OnOk result (string_bytes text.new ≡ string_bytes text.old
        ++ said.section_middle (part_in list.now) (groups_in groups.now)) }
{
    push_index(alloc, text, list.number, groups, list.index)?;
    push_list(alloc, text, list.link, list.room, list.number, groups)?;
    Ok(())
}

/// Adds what a list with these rows has below its heading. Returns how many groups it has.
fn push_section_of(
    alloc: Global,
    text: &mut String,
    seed: RandomState,
    list: &List<'_, '_>,
    rows: &[&Finding],
) -> Result<usize, AllocError>
    requires { list.now.number < 2 ^ 62 }
    ensures groups { OnOk result (string_bytes text.new ≡ string_bytes text.old
        ++ said.section_middle (part_in list.now) (groups_in_rows (findings_in rows.now))) }
    ensures number { IfOk result (λ n. n ≡ length (groups_in_rows (findings_in rows.now))) }
    ensures few { IfOk result (λ n. n < 2 ^ 61) }
{
    let grouped = rows_by_file(alloc, seed, rows)?;
    let groups = groups_of(alloc, &grouped)?;
    push_section_middle(alloc, text, list, &groups)?;
    Ok(groups.len())
}

/// Adds a list with these rows, if there are any. Returns how many groups it has.
#[tactic(auto, unfolding(crate::specs::HtmlGroups::section_if, crate::specs::HtmlGroups::section_of))]
pub(crate) fn push_section(
    alloc: Global,
    text: &mut String,
    seed: RandomState,
    list: &List<'_, '_>,
    rows: &[&Finding],
) -> Result<usize, AllocError>
    requires { list.now.number < 2 ^ 62 }
    ensures section { OnOk result (string_bytes text.new ≡ string_bytes text.old
        ++ said.section_if (part_in list.now) (findings_in rows.now)) }
    ensures number { IfOk result (λ n. n ≡ length (groups_in_rows (findings_in rows.now))) }
    ensures few { IfOk result (λ n. n < 2 ^ 61) }
{
    if rows.is_empty() {
        return Ok(0);
    }
    push_section_begin(text, list.name, list.heading, rows)?;
    let number = push_section_of(alloc, text, seed, list, rows)?;
    text.push_str("</section>\n")?;
    Ok(number)
}

//! The index of rules.
ghost use Rattle.std.specs.Prelude.{◌≡◌, ◌<◌, ◌+◌, ◌-◌, ◌^◌, ◌++◌, length, IfOk, OnOk, string_bytes};
ghost use Rattle.std.specs.List.{list_any};
ghost use Rattle.sarif_page.specs.HtmlIndex as said;
ghost use Rattle.sarif_page.specs.HtmlRules.{is_alike as alike};
ghost use Rattle.sarif_page.specs.Internal.ByFile.{findings_in};
ghost use Rattle.sarif_page.specs.Internal.Groups.{groups_in};
ghost use Rattle.sarif_page.specs.Internal.Rules.{rule_in, rules_in};

use crate::groups::Group;
use crate::html_fixed::{index_begin, index_end};
use crate::html_rows::{push_file, push_linked};
use crate::rules::{Index, Rule};
use sarif_findings::Finding;
use sarif_shown::{Escaping, count_text};
use std::alloc::{AllocError, Global};

/// Whether two results are of one rule of one tool.
fn is_alike(one: &Finding, other: &Finding) -> bool
    ensures { result ≡ alike one.now other.now }
{
    one.rule.as_str() == other.rule.as_str() && one.tool.as_str() == other.tool.as_str()
}

/// Whether one of these rows is of this result's rule and tool.
fn has_alike(rows: &[&Finding], finding: &Finding) -> bool
    ensures { result ≡ list_any (alike finding.now) (findings_in rows.now) }
{
    for row in rows {
        if is_alike(finding, row) {
            return true;
        }
    }
    false
}

/// Adds a link to the group with this number and these rows.
fn push_group_link(
    alloc: Global,
    text: &mut String,
    number: usize,
    rows: &[&Finding],
) -> Result<(), AllocError>
    ensures { OnOk result (string_bytes text.new ≡ string_bytes text.old
        ++ said.group_link number (findings_in rows.now)) }
{
    let id = format!(in alloc; "{number}")?;
    text.push_str("<a href=\"#f")?;
    text.push_str(id.as_str())?;
    text.push_str("\"><code>")?;
    push_file(text, rows)?;
    text.push_str("</code></a>")?;
    Ok(())
}

/// Adds a link to the first of these groups with a row of this result's rule and tool, if there is such a group.
fn push_first_link(
    alloc: Global,
    text: &mut String,
    finding: &Finding,
    number: usize,
    groups: &[Group<'_, '_>],
) -> Result<(), AllocError>
    requires { number + length groups.now < 2 ^ 64 }
    ensures { OnOk result (string_bytes text.new ≡ string_bytes text.old
        ++ said.first_link finding.now number (groups_in groups.now)) }
{
    let mut number = number;
    for group in groups {
        if has_alike(group.rows, finding) {
            push_group_link(alloc, text, number, group.rows)?;
            return Ok(());
        }
        number += 1;
    }
    Ok(())
}

/// Adds the number of results of a rule, and the rule.
#[tactic(auto, unfolding(crate::specs::HtmlIndex::index_front))]
fn push_index_front(alloc: Global, text: &mut String, rule: &Rule<'_>) -> Result<(), AllocError>
    ensures { OnOk result (string_bytes text.new
        ≡ string_bytes text.old ++ said.index_front (rule_in rule.now)) }
{
    let number = rule.number;
    let number = format!(in alloc; "{number}")?;
    text.push_str("<tr><td>")?;
    text.push_str(number.as_str())?;
    text.push_str("</td><th scope=\"row\">")?;
    push_linked(alloc, text, rule.first)?;
    text.push_str("</th><td>")?;
    Ok(())
}

/// Adds the name of a rule, if it has one.
fn push_name(alloc: Global, text: &mut String, finding: &Finding) -> Result<(), AllocError>
    ensures { OnOk result (string_bytes text.new
        ≡ string_bytes text.old ++ said.name_text finding.now.rule_name) }
{
    if let Some(name) = &finding.rule_name {
        Escaping::Page.push_str(alloc, text, name.as_str())?;
    }
    Ok(())
}

/// Adds the name and the tool of a rule.
#[tactic(auto, unfolding(crate::specs::HtmlIndex::index_middle))]
fn push_index_middle(alloc: Global, text: &mut String, finding: &Finding) -> Result<(), AllocError>
    ensures { OnOk result
        (string_bytes text.new ≡ string_bytes text.old ++ said.index_middle finding.now) }
{
    push_name(alloc, text, finding)?;
    text.push_str("</td><td>")?;
    Escaping::Page.push_str(alloc, text, finding.tool.as_str())?;
    text.push_str("</td><td>")?;
    Ok(())
}

/// Adds the row of a rule.
#[tactic(auto, unfolding(crate::specs::HtmlIndex::index_row))]
fn push_index_row(
    alloc: Global,
    text: &mut String,
    number: usize,
    groups: &[Group<'_, '_>],
    rule: &Rule<'_>,
) -> Result<(), AllocError>
    requires { number + length groups.now < 2 ^ 64 }
    ensures { OnOk result (string_bytes text.new ≡ string_bytes text.old
        ++ said.index_row number (groups_in groups.now) (rule_in rule.now)) }
{
    push_index_front(alloc, text, rule)?;
    push_index_middle(alloc, text, rule.first)?;
    push_first_link(alloc, text, rule.first, number, groups)?;
    text.push_str("</td></tr>\n")?;
    Ok(())
}

/// Adds the rows of these rules.
fn push_index_rows(
    alloc: Global,
    text: &mut String,
    number: usize,
    groups: &[Group<'_, '_>],
    rules: &[Rule<'_>],
) -> Result<(), AllocError>
    requires { number + length groups.now < 2 ^ 64 }
    ensures { OnOk result (string_bytes text.new ≡ string_bytes text.old
        ++ said.index_rows number (groups_in groups.now) (rules_in rules.now)) }
{
    for rule in rules {
        push_index_row(alloc, text, number, groups, rule)?;
    }
    Ok(())
}

/// How many rules the index doesn't show, or the empty string if there are none.
fn more_rules(alloc: Global, number: usize) -> Result<String, AllocError>
    ensures { IfOk result (λ s. string_bytes s ≡ said.more_rules number) }
{
    if number == 0 {
        return Ok(String::new(alloc));
    }
    let more = count_text(alloc, number, " more rule", " more rules")?;
    format!(in alloc; "<p>{more}</p>\n")
}

/// Adds how many rules the index doesn't show, if there are any.
fn push_more_rules(alloc: Global, text: &mut String, number: usize) -> Result<(), AllocError>
    ensures { OnOk result
        (string_bytes text.new ≡ string_bytes text.old ++ said.more_rules number) }
{
    let more = more_rules(alloc, number)?;
    text.push_str(more.as_str())?;
    Ok(())
}

/// How many rules the index doesn't show.
fn unshown_rules(index: &Index<'_>) -> usize
    ensures { result ≡ index.now.all - length (rules_in index.now.shown.items) }
{
    index.all.saturating_sub(index.shown.len())
}

/// Adds the index of these rules of a list with these groups.
#[tactic(auto, unfolding(crate::specs::HtmlIndex::index_of))]
fn push_rules(
    alloc: Global,
    text: &mut String,
    number: usize,
    groups: &[Group<'_, '_>],
    index: &Index<'_>,
) -> Result<(), AllocError>
    requires { number + length groups.now < 2 ^ 64 }
    ensures { OnOk result (string_bytes text.new ≡ string_bytes text.old
        ++ said.index_of number (groups_in groups.now)
        (rules_in index.now.shown.items) index.now.all) }
{
    let rules = count_text(alloc, index.all, " rule", " rules")?;
    text.push_str("<details class=\"rules\"><summary>")?;
    text.push_str(rules.as_str())?;
    text.push_str(index_begin())?;
    push_index_rows(alloc, text, number, groups, &index.shown)?;
    text.push_str(index_end())?;
    push_more_rules(alloc, text, unshown_rules(index))?;
    text.push_str("</details>\n")?;
    Ok(())
}

/// Adds the index of the rules of a list with these groups, if there are any.
pub(crate) fn push_index(
    alloc: Global,
    text: &mut String,
    number: usize,
    groups: &[Group<'_, '_>],
    index: &Index<'_>,
) -> Result<(), AllocError>
    requires { number + length groups.now < 2 ^ 64 }
    ensures { OnOk result (string_bytes text.new ≡ string_bytes text.old
        ++ said.index_html number (groups_in groups.now)
        (rules_in index.now.shown.items) index.now.all) }
{
    if index.shown.is_empty() {
        return Ok(());
    }
    push_rules(alloc, text, number, groups, index)
}

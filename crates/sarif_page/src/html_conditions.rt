//! The conditions of a policy on a page.
ghost use Rattle.std.specs.Prelude.{◌≡◌, ◌++◌, OnOk, flat_map, option_map, string_bytes};
ghost use Rattle.sarif_page.specs.HtmlReport as said;

use crate::html_fixed::{conditions_begin, counts_end};
use sarif_conditions::{ConditionFacts, PolicyFacts};
use sarif_shown::{Escaping, condition_cells};
use std::alloc::{AllocError, Global};

/// Adds the row of a condition.
#[tactic(auto, unfolding(crate::specs::HtmlReport::condition_row))]
fn push_condition_row(
    alloc: Global,
    text: &mut String,
    condition: &ConditionFacts,
) -> Result<(), AllocError>
    ensures { OnOk result
        (string_bytes text.new ≡ string_bytes text.old ++ said.condition_row condition.now) }
{
    let cells = condition_cells(alloc, "<td>", "</td>", condition)?;
    text.push_str("<tr><th scope=\"row\" align=\"left\">")?;
    Escaping::Page.push_str(alloc, text, condition.name.as_str())?;
    text.push_str("</th>")?;
    text.push_str(cells.as_str())?;
    text.push_str("</tr>\n")?;
    Ok(())
}

/// Adds the rows of these conditions.
fn push_condition_rows(
    alloc: Global,
    text: &mut String,
    conditions: &[ConditionFacts],
) -> Result<(), AllocError>
    ensures { OnOk result (string_bytes text.new
        ≡ string_bytes text.old ++ flat_map said.condition_row conditions.now) }
{
    for condition in conditions {
        push_condition_row(alloc, text, condition)?;
    }
    Ok(())
}

/// Adds the table of conditions, if there is a policy.
#[tactic(auto, unfolding(crate::specs::HtmlReport::conditions_table))]
pub(crate) fn push_conditions(
    alloc: Global,
    text: &mut String,
    ruling: Option<&PolicyFacts>,
) -> Result<(), AllocError>
    ensures { OnOk result (string_bytes text.new ≡ string_bytes text.old
        ++ said.conditions_table (option_map (λ ruling. ruling.now) ruling.entry)) }
{
    if let Some(ruling) = ruling {
        text.push_str(conditions_begin())?;
        push_condition_rows(alloc, text, ruling.conditions.as_slice())?;
        text.push_str(counts_end())?;
    }
    Ok(())
}

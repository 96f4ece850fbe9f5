//! The summary of a merge whose gate has a policy.
ghost use Rattle.std.specs.Prelude.{◌≡◌, ◌++◌, IfOk, OnOk, string_bytes};
ghost use Rattle.std.specs.List.{flat_map};
ghost use Rattle.sarif_counts.specs.Counts.{count_at};
ghost use Rattle.sarif_conditions.specs.Summary as said;

use crate::facts::{ConditionFacts, PolicyFacts, failed_conditions, verdict_of_policy};
use sarif_counts::Counts;
use sarif_scope::{ChangeFacts, counts_table};
use std::alloc::{AllocError, Global};

/// The line on a condition.
fn condition_row(alloc: Global, facts: &ConditionFacts) -> Result<String, AllocError>
    ensures { IfOk result (λ s. string_bytes s ≡ said.condition_line facts.now) }
{
    let name = facts.name.as_str();
    let word = facts.verdict().name();
    let hits = facts.hits;
    let limit = facts.limit;
    match facts.outside {
        None => format!(in alloc; "condition {name}: {word}, hits {hits}, limit {limit}\n"),
        Some(outside) => format!(in alloc;
            "condition {name}: {word}, hits {hits}, limit {limit}, outside {outside}\n"
        ),
    }
}

/// Adds the line on each condition.
fn push_rows(alloc: Global, text: &mut String, facts: &[ConditionFacts]) -> Result<(), AllocError>
    ensures { OnOk result (string_bytes text.new
        ≡ string_bytes text.old ++ flat_map said.condition_line facts.now) }
{
    for condition in facts {
        text.push_str(condition_row(alloc, condition)?.as_str())?;
    }
    Ok(())
}

/// The line on the change, if there is one.
fn change_row(alloc: Global, change: &Option<ChangeFacts>) -> Result<String, AllocError>
    ensures { IfOk result (λ s. string_bytes s ≡ said.change_line change.now) }
{
    match change {
        None => Ok(String::new(alloc)),
        Some(change) => {
            let files = change.files;
            let lines = change.lines;
            format!(in alloc; "diff: files {files}, lines {lines}\n")
        }
    }
}

/// The last line.
fn gate_row(alloc: Global, facts: &PolicyFacts) -> Result<String, AllocError>
    ensures { IfOk result (λ s. string_bytes s ≡ said.policy_line facts.now) }
{
    let word = verdict_of_policy(facts).name();
    let hits = facts.hits;
    let conditions = facts.conditions.as_slice().len();
    let failed = failed_conditions(facts);
    format!(in alloc; "gate: {word}, hits {hits}, conditions {conditions}, failed {failed}\n")
}

/// Returns the table of the counts of all results, a line on the change if there is one, a line for each condition, and
/// the verdict with the number of hits, of conditions, and of conditions that fail; each line with a newline. Returns
/// `AllocError` if memory for it runs out.
pub fn summary_of_policy(
    alloc: Global,
    counts: &Counts,
    facts: &PolicyFacts,
    change: &Option<ChangeFacts>,
) -> Result<String, AllocError>
    ensures { IfOk result (λ s. string_bytes s
        ≡ said.summary_of_policy change.now (count_at counts.now) facts.now) }
{
    let mut text = counts_table(alloc, counts)?;
    text.push_str(change_row(alloc, change)?.as_str())?;
    push_rows(alloc, &mut text, facts.conditions.as_slice())?;
    text.push_str(gate_row(alloc, facts)?.as_str())?;
    Ok(text)
}

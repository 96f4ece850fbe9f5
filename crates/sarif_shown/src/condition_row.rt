//! The row of a condition in a table of the conditions of a policy.
ghost use Rattle.std.specs.Prelude.{◌≡◌, IfOk, string_bytes};
ghost use Rattle.std.specs.Fmt.{decimal};
ghost use Rattle.sarif_shown.specs.ConditionRow as said;

use sarif_conditions::ConditionFacts;
use std::alloc::{AllocError, Global};

/// A cell with a string.
fn text_cell(alloc: Global, before: &str, after: &str, text: &str) -> Result<String, AllocError>
    ensures { IfOk result (λ s. string_bytes s ≡ said.cell before.now after.now text.now) }
{
    format!(in alloc; "{before}{text}{after}")
}

/// A cell with a number.
fn number_cell(alloc: Global, before: &str, after: &str, number: u64) -> Result<String, AllocError>
    ensures { IfOk result
        (λ s. string_bytes s ≡ said.cell before.now after.now (decimal number)) }
{
    format!(in alloc; "{before}{number}{after}")
}

/// The cell with the number of results outside of the change that would be hits, which is empty if there is none.
fn outside_cell(
    alloc: Global,
    before: &str,
    after: &str,
    outside: Option<u32>,
) -> Result<String, AllocError>
    ensures { IfOk result (λ s. string_bytes s
        ≡ said.cell before.now after.now (said.outside_number outside)) }
{
    match outside {
        None => text_cell(alloc, before, after, ""),
        Some(number) => number_cell(alloc, before, after, u64::from(number)),
    }
}

/// Returns the cells of a condition's row after its name, each between `before` and `after`. Returns `AllocError` if memory
/// runs out.
pub fn condition_cells(
    alloc: Global,
    before: &str,
    after: &str,
    condition: &ConditionFacts,
) -> Result<String, AllocError>
    ensures { IfOk result (λ s. string_bytes s
        ≡ said.condition_cells before.now after.now condition.now) }
{
    let verdict = text_cell(alloc, before, after, condition.verdict().name())?;
    let hits = number_cell(alloc, before, after, u64::from(condition.hits))?;
    let limit = number_cell(alloc, before, after, condition.limit)?;
    let outside = outside_cell(alloc, before, after, condition.outside)?;
    format!(in alloc; "{verdict}{hits}{limit}{outside}")
}

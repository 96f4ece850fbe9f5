//! Lists of what conditions see of results, side by side.
ghost use Rattle.std.specs.Prelude.{◌≡◌, length, map, IfOk};
ghost use Rattle.sarif_conditions.specs.Judged.{judged_of};
ghost use Rattle.sarif_deciding.specs.Internal.Looked.{seen_of};
ghost use Rattle.sarif_deciding.specs.Results as said;

use sarif_conditions::JudgedResult;
use sarif_model::{Record, State};
use sarif_policy::Rating;
use sarif_results::Draft;
use std::alloc::{AllocError, Global};

/// What conditions see of a result besides its record, its state and its draft.
#[derive(Clone, Copy)]
pub(crate) struct SeenResult<'r> {
    /// Its security severity.
    pub(crate) rating: &'r Rating,
    /// Whether it is inside of the change by the changed lines.
    pub(crate) in_lines: bool,
    /// Whether it is inside of the change by the changed files.
    pub(crate) in_files: bool,
    /// Whether it went away.
    pub(crate) is_gone: bool,
}

/// Puts what is seen of results side by side.
pub(crate) fn see_all<'r>(
    alloc: Global,
    ratings: &[&'r Rating],
    in_lines: &[bool],
    in_files: &[bool],
    gone: &[bool],
) -> Result<Vec<SeenResult<'r>>, AllocError>
    requires lines { length in_lines.now ≡ length ratings.now }
    requires files { length in_files.now ≡ length ratings.now }
    requires gone { length gone.now ≡ length ratings.now }
    ensures { IfOk result (λ seen. map seen_of seen.items
        ≡ said.seen_all (map (λ r. r.now) ratings.now) in_lines.now in_files.now gone.now) }
{
    let mut seen = Vec::with_capacity(alloc, ratings.len())?;
    for (number, rating) in ratings.iter().enumerate() {
        seen.push(SeenResult {
            rating: *rating,
            in_lines: in_lines[number],
            in_files: in_files[number],
            is_gone: gone[number],
        })?;
    }
    Ok(seen)
}

/// A result as conditions see it.
fn judge<'r>(
    record: &'r Record,
    state: State,
    draft: &Draft,
    seen: SeenResult<'r>,
) -> JudgedResult<'r>
    ensures { judged_of result ≡ said.judged_by «record».now state draft.now (seen_of seen.entry) }
{
    JudgedResult {
        record,
        state,
        level: draft.level,
        suppressed: draft.suppressed,
        rating: seen.rating,
        in_lines: seen.in_lines,
        in_files: seen.in_files,
        is_gone: seen.is_gone,
    }
}

/// Puts records, states, drafts and what else is seen of results side by side.
pub(crate) fn judge_all<'r>(
    alloc: Global,
    records: &[&'r Record],
    states: &[State],
    drafts: &[Draft],
    seen: &[SeenResult<'r>],
) -> Result<Vec<JudgedResult<'r>>, AllocError>
    requires states { length states.now ≡ length records.now }
    requires drafts { length drafts.now ≡ length records.now }
    requires seen { length seen.now ≡ length records.now }
    ensures { IfOk result (λ judged. map judged_of judged.items
        ≡ said.judged_all (map (λ r. r.now) records.now) states.now drafts.now
        (map seen_of seen.now)) }
{
    let mut judged = Vec::with_capacity(alloc, records.len())?;
    for (number, record) in records.iter().enumerate() {
        judged.push(judge(*record, states[number], &drafts[number], seen[number]))?;
    }
    Ok(judged)
}

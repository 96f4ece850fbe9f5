//! Which absent results went away: their tool was heard, and they meet the conditions of no suppression entry.
ghost use Rattle.std.specs.Prelude.{◌≡◌, ◌≤◌, not, None, length, map, IfOk};
ghost use Rattle.std.specs.List.{list_any};
ghost use Rattle.sarif_entries.specs.Matching.{matches};
ghost use Rattle.sarif_heard.specs.Heard.{tool_run};
ghost use Rattle.sarif_model.specs.Limits.{most_entries};
ghost use Rattle.sarif_policy.specs.Condition as policy;
ghost use Rattle.sarif_runs.specs.Internal.Opened.{placed_of};
ghost use Rattle.sarif_runs.specs.Judging.{run_values};
ghost use Rattle.sarif_deciding.specs.Internal.Gone.{filters_of, gone_by, IsTestOf};

use sarif_accept::Heard;
use sarif_entries::{Condition, Entry, copy_of_conditions};
use sarif_heard::heard_in;
use sarif_model::{Record, Sequence, Status};
use sarif_runs::OpenedRun;
use sarif_suppress::Suppressions;
use std::alloc::{AllocError, Global};
use std::hash::RandomState;

/// Returns the entry that has only these conditions.
fn filter_with(conditions: Sequence<Condition>) -> Entry
    ensures { result ≡ policy.filter_with conditions }
{
    Entry {
        conditions,
        expires: None,
        status: Status::Accepted,
        justification: None,
        limit: None,
    }
}

/// Returns the entries of the file with their conditions alone: they don't expire, and have no `max`.
fn list_filters(alloc: Global, file: &Suppressions) -> Result<Vec<Entry>, AllocError>
    ensures filters { IfOk result (λ filters. filters.items ≡ filters_of file.now.entries) }
    ensures few { IfOk result (λ filters. length filters.items ≤ most_entries) }
{
    let mut filters = Vec::with_capacity(alloc, file.len() as usize)?;
    for entry in file.entries() {
        let conditions = copy_of_conditions(alloc, entry.conditions.as_slice())?;
        filters.push(filter_with(conditions))?;
    }
    Ok(filters)
}

/// By what a result went away.
#[derive(Drop)]
pub(crate) struct GoneTest {
    /// Which tools were heard.
    pub(crate) heard: Heard,
    /// The entries of the suppression file with their conditions alone.
    pub(crate) filters: Suppressions,
}

/// Returns by what a result went away, for these input runs and this file.
pub(crate) fn test_of(
    alloc: Global,
    seed: RandomState,
    runs: &[OpenedRun<'_, '_>],
    file: &Suppressions,
) -> Result<GoneTest, AllocError>
    ensures { IfOk result (IsTestOf file.now (map placed_of runs.now)) }
{
    let heard = heard_in(alloc, seed, runs)?;
    let filters = Suppressions::new(alloc, seed, list_filters(alloc, file)?, None)?;
    Ok(GoneTest { heard, filters })
}

/// Returns whether no entry matches the result.
fn meets_none(alloc: Global, filters: &Suppressions, record: &Record) -> Result<bool, AllocError>
    ensures { IfOk result (λ none. none
        ≡ not (list_any (λ e. matches filters.now.today e «record».now) filters.now.entries)) }
{
    let applied = filters.apply(alloc, record)?;
    Ok(applied.entries.as_slice().is_empty())
}

/// Returns whether the result went away.
fn is_gone(alloc: Global, test: &GoneTest, record: &Record) -> Result<bool, AllocError>
    ensures { IfOk result (λ gone. gone ≡ gone_by test.now «record».now) }
{
    if test.heard.hears(Some(&record.tool)) {
        meets_none(alloc, &test.filters, record)
    } else {
        Ok(false)
    }
}

/// Returns which of these results went away.
pub(crate) fn list_gone(
    alloc: Global,
    test: &GoneTest,
    records: &[&Record],
) -> Result<Vec<bool>, AllocError>
    ensures { IfOk result
        (λ gone. gone.items ≡ map (gone_by test.now) (map (λ r. r.now) records.now)) }
{
    let mut gone = Vec::with_capacity(alloc, records.len())?;
    for record in records {
        gone.push(is_gone(alloc, test, record)?)?;
    }
    Ok(gone)
}

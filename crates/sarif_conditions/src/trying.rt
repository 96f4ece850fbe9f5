//! Which results the filters of a condition match, and how many of them match none. Many filters are filed as suppression
//! entries are, so that a result is compared only with those that may match it.
ghost use Rattle.std.specs.Prelude.{◌≡◌, ◌≤◌, ◌&&◌, ◌++◌, ◌∷◌, [], List, None, length, map, not, true, unwrap_or, IfOk, OnOk};
ghost use Rattle.std.specs.List.{count_by, list_any};
ghost use Rattle.sarif_conditions.specs.Decided as decided;
ghost use Rattle.sarif_conditions.specs.Internal.Tried.{passing, IsTried, AreTried};
ghost use Rattle.sarif_conditions.specs.Judged.{Judged, judged_of};
ghost use Rattle.sarif_entries.specs.Matching.{matches};
ghost use Rattle.sarif_policy.specs.Condition.{any_matches, is_chosen};
ghost use Rattle.sarif_suppress.specs.Internal.Marks.{marks_of};

use crate::asking::is_absent;
use crate::judged::JudgedResult;
use sarif_entries::{Entry, copy_of_conditions};
use sarif_model::{MOST_ENTRIES, Record, Sequence, Text};
use sarif_policy::GateCondition;
use sarif_suppress::{Marks, Suppressions};
use std::alloc::{AllocError, Global};
use std::hash::BuildHasher;

/// Fewer filters are compared with each result: that takes less time than to look them up.
const FEWEST_FILED: usize = 8;

/// What filters say about results.
#[derive(Drop)]
pub(crate) struct TriedFilters {
    /// For each result, whether they choose it.
    pub(crate) matched: Vec<bool>,
    /// How many of them match no current result.
    pub(crate) unused: usize,
}

/// What both lists of filters of a condition say about results.
#[derive(Drop)]
pub(crate) struct TriedCondition {
    /// `only`: a result is chosen if one of them matches it, or if there are none.
    pub(crate) only: TriedFilters,
    /// `except`: a result is chosen if one of them matches it.
    pub(crate) except: TriedFilters,
}

/// Returns whether one of the filters matches the result.
fn match_any(filters: &[Entry], record: &Record) -> bool
    ensures { result ≡ any_matches filters.now «record».now }
{
    filters.iter().any(|filter| filter.matches(None, record))
}

/// Returns for each result whether one of the filters matches it.
fn match_each(
    alloc: Global,
    filters: &[Entry],
    results: &[JudgedResult],
) -> Result<Vec<bool>, AllocError>
    ensures { IfOk result (λ marks. marks.items
        ≡ passing (any_matches filters.now) (map judged_of results.now)) }
{
    let mut marks = Vec::with_capacity(alloc, results.len())?;
    for found in results {
        marks.push(match_any(filters, found.record))?;
    }
    Ok(marks)
}

/// Returns whether the result is a current one that the filter matches.
fn is_met(filter: &Entry, found: &JudgedResult) -> bool
    ensures { result ≡ (not (decided.is_absent found.now.state)
        && matches None filter.now found.now.«record».now) }
{
    !is_absent(found.state) && filter.matches(None, found.record)
}

/// Returns whether one of the results is a current one that the filter matches.
fn any_met(filter: &Entry, results: &[JudgedResult]) -> bool
    ensures { result ≡ list_any (λ r. not (decided.is_absent r.state)
        && matches None filter.now r.«record».now) results.now }
{
    results.iter().any(|found| is_met(filter, found))
}

/// Returns whether the filter matches a current result.
fn is_used(filter: &Entry, results: &[JudgedResult]) -> bool
    ensures { result ≡ list_any (λ found. matches None filter.now found)
        (decided.currents (map judged_of results.now)) }
{
    any_met(filter, results)
}

/// Returns how many of the filters match no current result.
fn count_unused(filters: &[Entry], results: &[JudgedResult]) -> usize
    ensures { result ≡ count_by (decided.is_unused (map judged_of results.now)) filters.now }
{
    filters
        .iter()
        .filter(|filter| !is_used(filter, results))
        .count()
}

/// Compares each filter with each result.
fn try_each(
    alloc: Global,
    filters: &[Entry],
    results: &[JudgedResult],
) -> Result<TriedFilters, AllocError>
    ensures { IfOk result
        (IsTried (any_matches filters.now) filters.now (map judged_of results.now)) }
{
    let matched = match_each(alloc, filters, results)?;
    let unused = count_unused(filters, results);
    Ok(TriedFilters { matched, unused })
}

/// Returns a copy of a string, if there is one.
fn copy_of_text(text: &Option<Text>) -> Result<Option<Text>, AllocError>
    ensures { IfOk result (λ copy. copy ≡ text.now) }
{
    match text {
        Some(text) => Ok(Some(text.clone()?)),
        None => Ok(None),
    }
}

/// Returns a copy of a filter. Its strings are shared.
fn copy_of_filter(alloc: Global, filter: &Entry) -> Result<Entry, AllocError>
    ensures { IfOk result (λ copy. copy ≡ filter.now) }
{
    Ok(Entry {
        conditions: copy_of_conditions(alloc, filter.conditions.as_slice())?,
        expires: filter.expires,
        status: filter.status,
        justification: copy_of_text(&filter.justification)?,
        limit: filter.limit,
    })
}

/// Returns a copy of the filters. Their strings are shared.
fn copy_of_filters(alloc: Global, filters: &[Entry]) -> Result<Vec<Entry>, AllocError>
    ensures { IfOk result (λ copy. copy.items ≡ filters.now) }
{
    let mut copy = Vec::with_capacity(alloc, filters.len())?;
    for filter in filters {
        copy.push(copy_of_filter(alloc, filter)?)?;
    }
    Ok(copy)
}

/// Adds whether one of the filters matches the result; if it is a current one, marks those that do.
#[tactic(auto, using(crate::proofs::TryingMore::matched_filed, crate::proofs::TryingMore::marked_absent, crate::proofs::TryingMore::marked_current))]
fn try_one<S: BuildHasher + Copy>(
    alloc: Global,
    filed: &Suppressions<S>,
    matched: &mut Vec<bool>,
    marks: &mut Marks,
    found: &JudgedResult,
) -> Result<(), AllocError>
    requires { filed.now.today ≡ None }
    ensures matched { OnOk result (matched.new.items
        ≡ matched.old.items ++ any_matches filed.now.entries found.now.«record».now ∷ []) }
    ensures marks { OnOk result ((rs : List Judged)
        → marks.old ≡ marks_of filed.now (decided.currents rs)
        → marks.new ≡ marks_of filed.now (decided.currents (rs ++ judged_of found.now ∷ []))) }
{
    let applied = filed.apply(alloc, found.record)?;
    matched.push(!applied.entries.as_slice().is_empty())?;
    if !is_absent(found.state) {
        marks.set(&applied);
    }
    Ok(())
}

/// Compares each result with the filters that may match it.
#[tactic(auto, using(crate::proofs::TryingMore::unused_filed))]
fn try_filed<S: BuildHasher + Copy>(
    alloc: Global,
    filed: &Suppressions<S>,
    results: &[JudgedResult],
) -> Result<TriedFilters, AllocError>
    requires { filed.now.today ≡ None }
    ensures { IfOk result (IsTried (any_matches filed.now.entries) filed.now.entries
        (map judged_of results.now)) }
{
    let mut matched = Vec::with_capacity(alloc, results.len())?;
    let mut marks = filed.marks(alloc)?;
    for found in results {
        try_one(alloc, filed, &mut matched, &mut marks, found)?;
    }
    Ok(TriedFilters {
        matched,
        unused: marks.unused() as usize,
    })
}

/// Returns for each result whether one of the filters matches it, and how many of the filters match no current result.
/// Their tables hash with `hasher`, on which nothing depends.
fn try_filters<S: BuildHasher + Copy>(
    alloc: Global,
    hasher: S,
    filters: &[Entry],
    results: &[JudgedResult],
) -> Result<TriedFilters, AllocError>
    ensures { IfOk result
        (IsTried (any_matches filters.now) filters.now (map judged_of results.now)) }
{
    if filters.len() < FEWEST_FILED || MOST_ENTRIES < filters.len() {
        return try_each(alloc, filters, results);
    }
    let copy = copy_of_filters(alloc, filters)?;
    let filed = Suppressions::new(alloc, hasher, copy, None)?;
    try_filed(alloc, &filed, results)
}

/// Returns that each result is chosen, since there are no filters that choose.
#[tactic(auto, using(crate::proofs::TryingMore::all_chosen))]
fn choose_all(alloc: Global, results: &[JudgedResult]) -> Result<TriedFilters, AllocError>
    ensures { IfOk result (IsTried (is_chosen None) [] (map judged_of results.now)) }
{
    let matched = vec![in alloc; true; results.len()]?;
    Ok(TriedFilters { matched, unused: 0 })
}

/// Returns which results the filters of `only` choose, and how many of them match no current result.
#[tactic(auto, using(crate::proofs::TryingMore::tried_some))]
fn try_only<S: BuildHasher + Copy>(
    alloc: Global,
    hasher: S,
    only: &Option<Sequence<Entry>>,
    results: &[JudgedResult],
) -> Result<TriedFilters, AllocError>
    ensures { IfOk result
        (IsTried (is_chosen only.now) (unwrap_or only.now []) (map judged_of results.now)) }
{
    match only {
        None => choose_all(alloc, results),
        Some(only) => {
            let tried = try_filters(alloc, hasher, only.as_slice(), results)?;
            Ok(tried)
        }
    }
}

/// Returns what both lists of filters of the condition say about these results. Returns `AllocError` if memory runs out.
pub(crate) fn try_condition<S: BuildHasher + Copy>(
    alloc: Global,
    hasher: S,
    condition: &GateCondition,
    results: &[JudgedResult],
) -> Result<TriedCondition, AllocError>
    ensures { IfOk result (AreTried condition.now (map judged_of results.now)) }
{
    let only = try_only(alloc, hasher, &condition.only, results)?;
    let except = try_filters(alloc, hasher, condition.except.as_slice(), results)?;
    Ok(TriedCondition { only, except })
}

//! Reading the snippets that filters of the policy and entries of the suppression file compare.
ghost use Rattle.std.specs.Prelude.{◌≡◌, map, true};
ghost use Rattle.std.specs.List.{list_any};
ghost use Rattle.sarif_inputs.specs.PolicyIn.{conditions_in};
ghost use Rattle.sarif_inputs.specs.Snippets as said;
ghost use Rattle.sarif_inputs.specs.Snippets.{names_snippet, with_regions, with_regions_if};
ghost use Rattle.sarif_runs.specs.Internal.Opened.{placed_of};

use sarif_entries::{ConditionKind, Entry, text_in};
use sarif_policy::{GateCondition, GatePolicy};
use sarif_runs::OpenedRun;
use sarif_suppress::Suppressions;

/// Whether an entry compares snippets.
fn names_snippet(entry: &Entry) -> bool
    ensures { result ≡ names_snippet entry.now }
{
    text_in(entry.conditions.as_slice(), ConditionKind::Snippet).is_some()
}

/// Whether one of these entries compares snippets.
fn compares_any(entries: &[Entry]) -> bool
    ensures { result ≡ list_any names_snippet entries.now }
{
    entries.iter().any(names_snippet)
}

/// Whether an entry of the suppression file compares snippets.
fn compares_snippets(file: &Suppressions) -> bool
    ensures { result ≡ said.compares_snippets file.now }
{
    file.entries().iter().any(names_snippet)
}

/// Whether a filter of the condition compares snippets.
fn filters_name_snippet(condition: &GateCondition) -> bool
    ensures { result ≡ said.filters_name_snippet condition.now }
{
    let in_only = match &condition.only {
        Some(only) => compares_any(only.as_slice()),
        None => false,
    };
    in_only || compares_any(condition.except.as_slice())
}

/// Whether a filter of one of these conditions compares snippets.
fn compares_in_filters(conditions: &[GateCondition]) -> bool
    ensures { result ≡ list_any said.filters_name_snippet conditions.now }
{
    conditions.iter().any(filters_name_snippet)
}

/// Whether a filter of the policy compares snippets, if there is a policy.
fn policy_compares_snippets(policy: &Option<GatePolicy>) -> bool
    ensures { result ≡ said.policy_compares_snippets (conditions_in policy.now) }
{
    match policy {
        Some(policy) => compares_in_filters(policy.conditions.as_slice()),
        None => false,
    }
}

/// Whether a filter of the policy or an entry of the suppression file compares snippets.
fn compare_snippets(policy: &Option<GatePolicy>, file: &Suppressions) -> bool
    ensures { result ≡ said.compare_snippets (conditions_in policy.now) file.now }
{
    policy_compares_snippets(policy) || compares_snippets(file)
}

/// Reads a run with regions and snippets.
fn read_regions(run: &mut OpenedRun<'_, '_>)
    ensures { placed_of run.new ≡ with_regions (placed_of run.old) }
{
    run.options.records.regions = true;
}

/// Reads runs with regions and snippets.
fn read_all_regions(runs: &mut Vec<OpenedRun<'_, '_>>)
    ensures { map placed_of runs.new.items
        ≡ map (λ run. with_regions (placed_of run)) runs.old.items }
{
    for run in runs.iter_mut() {
        read_regions(run);
    }
}

/// Has the records of these runs' results have regions and snippets, if a filter of the policy or an entry of the
/// suppression file compares snippets. Call this before the results are judged. Does not allocate.
pub fn read_snippets(
    policy: &Option<GatePolicy>,
    file: &Suppressions,
    runs: &mut Vec<OpenedRun<'_, '_>>,
)
    ensures { map placed_of runs.new.items
        ≡ with_regions_if (said.compare_snippets (conditions_in policy.now) file.now)
        (map placed_of runs.old.items) }
{
    if compare_snippets(policy, file) {
        read_all_regions(runs);
    }
}

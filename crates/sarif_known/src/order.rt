//! The runs of the known log, tool by tool.
ghost use Rattle.std.specs.Prelude.{◌≡◌, ◌++◌, ◌∷◌, [], OnOk, IfOk, length, map, replicate};
ghost use Rattle.std.specs.List.{flat_map};
ghost use Rattle.sarif_known.specs.Chosen.{all_chosen, chosen_of};
ghost use Rattle.sarif_known.specs.Internal.Groups.{groups_of, side_by_side, spread, texts_of, AreApart};
ghost use Rattle.sarif_known.specs.Order.{in_turn, known_runs, once_each, runs_of_tool};

use crate::chosen::KnownRun;
use indexmap::IndexSet;
use sarif_evidence::MatchingVersion;
use sarif_model::Text;
use std::alloc::{AllocError, Global};
use std::hash::RandomState;

/// Adds the tools of these runs, each once.
fn add_tools<'a>(
    tools: &mut IndexSet<&'a Text, RandomState>,
    runs: &[KnownRun<'a>],
) -> Result<(), AllocError>
    ensures { OnOk result (texts_of tools.new.keys ≡ texts_of tools.old.keys
        ++ once_each (texts_of tools.old.keys) (map (λ run. run.tool) (all_chosen runs.now))) }
{
    for run in runs {
        tools.insert(run.tool)?;
    }
    Ok(())
}

/// Returns an empty group for each of this number of tools.
fn empty_groups<'a>(alloc: Global, count: usize) -> Result<Vec<Vec<KnownRun<'a>>>, AllocError>
    ensures empty { IfOk result (λ groups. groups_of groups.items ≡ replicate count []) }
    ensures count { IfOk result (λ groups. length groups.items ≡ count) }
{
    let mut groups = Vec::with_capacity(alloc, count)?;
    for _ in 0..count {
        groups.push(Vec::new(alloc))?;
    }
    Ok(groups)
}

/// Adds a run to the group of its tool.
fn add_run<'a>(
    tools: &IndexSet<&'a Text, RandomState>,
    groups: &mut Vec<Vec<KnownRun<'a>>>,
    run: KnownRun<'a>,
) -> Result<(), AllocError>
    requires { length groups.old.items ≡ length tools.now.keys }
    ensures added { OnOk result (groups_of groups.new.items
        ≡ spread (texts_of tools.now.keys) (chosen_of run.entry) (groups_of groups.old.items)) }
    ensures count { OnOk result (length groups.new.items ≡ length groups.old.items) }
{
    if let Some(rank) = tools.get_index_of(&run.tool) {
        groups[rank].push(run)?;
    }
    Ok(())
}

/// Adds those of these runs that have results to the groups of their tools.
fn add_runs<'a>(
    tools: &IndexSet<&'a Text, RandomState>,
    groups: &mut Vec<Vec<KnownRun<'a>>>,
    runs: Vec<KnownRun<'a>>,
) -> Result<(), AllocError>
    requires apart { AreApart [] (texts_of tools.now.keys) }
    requires count { length groups.old.items ≡ length tools.now.keys }
    ensures added { OnOk result (groups_of groups.new.items
        ≡ side_by_side (groups_of groups.old.items)
        (map (runs_of_tool (all_chosen runs.entry.items)) (texts_of tools.now.keys))) }
    ensures count { OnOk result (length groups.new.items ≡ length tools.now.keys) }
{
    for run in runs {
        if !run.records.is_empty() {
            add_run(tools, groups, run)?;
        }
    }
    Ok(())
}

/// Returns the runs of these groups, in order.
fn flatten<'a>(
    alloc: Global,
    groups: Vec<Vec<KnownRun<'a>>>,
) -> Result<Vec<KnownRun<'a>>, AllocError>
    ensures { IfOk result
        (λ runs. all_chosen runs.items ≡ flat_map (λ g. g) (groups_of groups.entry.items)) }
{
    let mut runs = Vec::new(alloc);
    for mut group in groups {
        runs.append(&mut group)?;
    }
    Ok(runs)
}

/// Adds those of these runs that have results to the groups of their tools, which are empty: the input runs before
/// those of the baselines, in version 3 after them.
fn add_in_turn<'a>(
    version: MatchingVersion,
    tools: &IndexSet<&'a Text, RandomState>,
    groups: &mut Vec<Vec<KnownRun<'a>>>,
    current: Vec<KnownRun<'a>>,
    baseline: Vec<KnownRun<'a>>,
) -> Result<(), AllocError>
    requires apart { AreApart [] (texts_of tools.now.keys) }
    requires count { length groups.old.items ≡ length tools.now.keys }
    ensures added { OnOk result (groups_of groups.new.items
        ≡ side_by_side (groups_of groups.old.items)
        (map (runs_of_tool (in_turn version (all_chosen current.entry.items)
        (all_chosen baseline.entry.items))) (texts_of tools.now.keys))) }
{
    match version {
        MatchingVersion::Two => {
            add_runs(tools, groups, current)?;
            add_runs(tools, groups, baseline)?;
        }
        MatchingVersion::Three => {
            add_runs(tools, groups, baseline)?;
            add_runs(tools, groups, current)?;
        }
    }
    Ok(())
}

/// Returns the runs that have results, tool by tool: the tools in the order of their first runs among those of the
/// baselines and then of the inputs; of a tool its input runs, and then its baseline runs, or in version 3 the other
/// way round.
pub(crate) fn order_runs<'a>(
    alloc: Global,
    seed: RandomState,
    version: MatchingVersion,
    current: Vec<KnownRun<'a>>,
    baseline: Vec<KnownRun<'a>>,
) -> Result<Vec<KnownRun<'a>>, AllocError>
    ensures { IfOk result (λ runs. all_chosen runs.items
        ≡ known_runs version (all_chosen current.entry.items)
        (all_chosen baseline.entry.items)) }
{
    let mut tools = IndexSet::with_hasher(alloc, seed);
    add_tools(&mut tools, &baseline)?;
    add_tools(&mut tools, &current)?;
    let mut groups = empty_groups(alloc, tools.len())?;
    add_in_turn(version, &tools, &mut groups, current, baseline)?;
    let runs = flatten(alloc, groups)?;
    Ok(runs)
}

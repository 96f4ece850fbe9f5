//! What is for later merges.
ghost use Rattle.std.specs.Prelude.{◌≡◌, List, Some, map, option_map, unwrap_or, IfOk};
ghost use Rattle.sarif_model.specs.declared.kinds.State.TheVariants.{New};
ghost use Rattle.sarif_runs.specs.Placed.{Placed};
ghost use Rattle.sarif_known.specs.Chosen.{knows_regions};
ghost use Rattle.sarif_upkeep.specs.Internal.IsMatched.{IsFileOf};
ghost use Rattle.sarif_prepare.specs.Internal.Keeping.{AreDecided, AreLookedAt, AreOfRuns, AreRuled, HaveImpacts, KeepsIfOk, RejectsIfErr};
ghost use Rattle.sarif_prepare.specs.Internal.Ruling as said;
ghost use Rattle.sarif_prepare.specs.Kept.{bytes_of, change_in};
ghost use Rattle.sarif_prepare.specs.Asked.{upkeep_in};
ghost use Rattle.sarif_prepare.specs.Ruled as decisions;
ghost use Rattle.sarif_prepare.specs.Internal.Together.{IsPaired};

use crate::asked::Asked;
use crate::file_read::FileRead;
use crate::impacts::any_policy;
use crate::marking::mark_if_chosen;
use crate::outside::Narrowed;
use crate::pairing::{Paired, Sides};
use crate::ruled::RuledSides;
use sarif_counts::Life;
use sarif_evidence::MatchingVersion;
use sarif_known::Standing;
use sarif_model::{MergeFault, State};
use sarif_options::{Checks, Policy, Upkeep};
use sarif_upkeep::{Before, Current, Matched, life_of};
use std::alloc::{AllocError, Global};
use std::thread::Threads;

/// Returns the state of each current result; each has one.
pub(crate) fn list_there(alloc: Global, states: &[Option<State>]) -> Result<Vec<State>, AllocError>
    ensures { IfOk result (λ there. there.items ≡ map (λ state. unwrap_or state New) states.now) }
{
    let mut there = Vec::with_capacity(alloc, states.len())?;
    for state in states {
        there.push(state.unwrap_or(State::New))?;
    }
    Ok(there)
}

/// The marks, if there are some.
fn lent(marks: &Option<Vec<bool>>) -> Option<&[bool]>
    ensures { option_map (λ lent. lent.now) result ≡ option_map (λ v. v.items) marks.now }
{
    match marks {
        None => None,
        Some(marks) => Some(marks.as_slice()),
    }
}

/// Returns the marks of the results that are outside, if there is a change.
fn marks_in<'m>(narrowed: Option<&'m Narrowed>) -> Option<&'m [bool]>
    ensures { option_map (λ lent. lent.now) result
        ≡ option_map (λ n. n.marks.items) (option_map (λ n. n.now) narrowed.entry) }
{
    match narrowed {
        None => None,
        Some(narrowed) => Some(narrowed.marks.as_slice()),
    }
}

/// Returns which results of logs are hidden from the gate: with a policy those that aren't hits, otherwise with a change
/// those outside.
fn hidden_in<'m>(
    ruled: Option<&'m RuledSides>,
    narrowed: Option<&'m Narrowed>,
) -> Option<&'m [bool]>
    ensures { option_map (λ lent. lent.now) result ≡ said.hidden_as
        (option_map (λ r. r.now) ruled.entry) (option_map (λ n. n.now) narrowed.entry) }
{
    match ruled {
        None => marks_in(narrowed),
        Some(ruled) => Some(ruled.hidden.as_slice()),
    }
}

/// Returns how many absent results are hits, if there is a policy.
fn absent_in(ruled: Option<&RuledSides>) -> Option<u32>
    ensures { result ≡ said.absent_by (option_map (λ r. r.now) ruled.entry) }
{
    match ruled {
        Some(ruled) => Some(ruled.absent),
        None => None,
    }
}

/// Returns what matching and the policy say about each result of logs.
fn standings_in<'m>(ruled: Option<&'m RuledSides>, paired: &'m Paired) -> &'m [Standing]
    ensures { result.now ≡ said.standings_by
        (option_map (λ r. r.now) ruled.entry) paired.now }
{
    match ruled {
        None => paired.standings.as_slice(),
        Some(ruled) => ruled.standings.as_slice(),
    }
}

/// Returns what the gate fails on: with a policy the hidden results say what isn't a hit, so each other one is.
fn policy_by(ruled: Option<&RuledSides>, policy: Policy) -> Policy
    ensures { result ≡ said.policy_by (option_map (λ r. r.now) ruled.entry) policy }
{
    match ruled {
        Some(_) => any_policy(),
        None => policy,
    }
}

/// Whether the known log has regions and snippets: if matching reads them or copies aren't counted.
fn knows_regions(checks: &Checks) -> bool
    ensures { result ≡ knows_regions checks.now.matching checks.now.once }
{
    match checks.matching {
        MatchingVersion::Two => checks.once,
        MatchingVersion::Three => true,
    }
}

/// What a merge gives for later merges, where something is requested.
fn keep<R: Threads + Sync>(
    rt: &R,
    alloc: Global,
    sides: &Sides<'_, '_, '_>,
    rules: &FileRead<'_>,
    asked: &Asked<'_>,
    upkeep: &Upkeep,
) -> Result<Life, MergeFault>
    requires read { IsFileOf (bytes_of rules.now) rules.now.file.now }
    requires together { (current_runs : List Placed) × (baseline_runs : List Placed)
        × AreOfRuns rules.now sides.now current_runs baseline_runs }
    requires paired { IsPaired asked.now.options.now.checks.matching
        sides.now.current.now sides.now.baselines.now sides.now.paired.now }
    requires narrowed { AreLookedAt (change_in rules.now) asked.now sides.now }
    requires each { HaveImpacts sides.now }
    requires ruled { AreRuled sides.now }
    requires decided { (current_runs baseline_runs : List Placed)
        → AreOfRuns rules.now sides.now current_runs baseline_runs
        → AreDecided (decisions.policy_in rules.now) rules.now.file.now (change_in rules.now)
        asked.now.options.now.checks.matching sides.now current_runs baseline_runs }
    ensures kept { KeepsIfOk rules.now asked.now sides.now (Some upkeep.now) result }
    ensures unkept { RejectsIfErr rules.now asked.now sides.now (Some upkeep.now) result }
{
    let marks = mark_if_chosen(rt, alloc, sides, rules, asked)?;
    let states = list_there(alloc, &sides.paired.states)?;
    let matched = Matched {
        file: rules.file,
        bytes: rules.bytes,
        policy: policy_by(sides.ruled, asked.options.policy),
        matching: asked.options.checks.matching,
        once: asked.options.checks.once,
        regions: knows_regions(&asked.options.checks),
        hidden: hidden_in(sides.ruled, sides.narrowed),
        absent: absent_in(sides.ruled),
        chosen: lent(&marks),
        current: Current {
            runs: &sides.current.runs,
            records: &sides.current.records,
            drafts: &sides.current.drafts,
            states: &states,
            standings: standings_in(sides.ruled, sides.paired),
        },
        before: Before {
            runs: &sides.baselines.runs,
            counts: &sides.baselines.counts,
            records: &sides.baselines.records,
            taken: &sides.paired.taken,
        },
    };
    let life = life_of(alloc, asked.options.seed, &matched, upkeep)?;
    Ok(life)
}

/// Returns what a merge gives for later merges: what is requested, and nothing else.
pub(crate) fn keep_if_asked<R: Threads + Sync>(
    rt: &R,
    alloc: Global,
    sides: &Sides<'_, '_, '_>,
    rules: &FileRead<'_>,
    asked: &Asked<'_>,
) -> Result<Life, MergeFault>
    requires read { IsFileOf (bytes_of rules.now) rules.now.file.now }
    requires together { (current_runs : List Placed) × (baseline_runs : List Placed)
        × AreOfRuns rules.now sides.now current_runs baseline_runs }
    requires paired { IsPaired asked.now.options.now.checks.matching
        sides.now.current.now sides.now.baselines.now sides.now.paired.now }
    requires narrowed { AreLookedAt (change_in rules.now) asked.now sides.now }
    requires each { HaveImpacts sides.now }
    requires ruled { AreRuled sides.now }
    requires decided { (current_runs baseline_runs : List Placed)
        → AreOfRuns rules.now sides.now current_runs baseline_runs
        → AreDecided (decisions.policy_in rules.now) rules.now.file.now (change_in rules.now)
        asked.now.options.now.checks.matching sides.now current_runs baseline_runs }
    ensures kept { KeepsIfOk rules.now asked.now sides.now (upkeep_in asked.now) result }
    ensures unkept { RejectsIfErr rules.now asked.now sides.now (upkeep_in asked.now) result }
{
    match asked.upkeep {
        Some(upkeep) => keep(rt, alloc, sides, rules, asked, upkeep),
        None => Ok(Life::none()),
    }
}

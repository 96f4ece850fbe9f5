//! What is reported about matched results, what the gate says about a change and a policy, and what is for later merges.
ghost use Rattle.std.specs.Prelude.{◌≡◌, ◌+◌, List, Option, Some, IfOk, IfErr, length, option_map};
ghost use Rattle.sarif_conditions.specs.declared.decided.Decided.{Decided as Ruling};
ghost use Rattle.sarif_entries.specs.File.{File};
ghost use Rattle.sarif_log.specs.LogBy.{runs_by};
ghost use Rattle.sarif_log.specs.Told.{told_by, told_of};
ghost use Rattle.sarif_prepare.specs.Asked.{choice_in, reporting_in, upkeep_in};
ghost use Rattle.sarif_prepare.specs.Chosen.{chosen_merge};
ghost use Rattle.sarif_prepare.specs.Internal.Keeping.{AreLookedAt};
ghost use Rattle.sarif_prepare.specs.Internal.Together.{AreTogether, IsPaired};
ghost use Rattle.sarif_prepare.specs.Kept.{bytes_of, change_in, IsKept, IsUnkept};
ghost use Rattle.sarif_prepare.specs.Ruled.{decided_by, matched_in, policy_in};
ghost use Rattle.sarif_prepare.specs.Told.{ruled_for, told_for, told_in};
ghost use Rattle.sarif_policy.specs.declared.condition.GateCondition.{GateCondition};
ghost use Rattle.sarif_runs.specs.Placed.{Placed};
ghost use Rattle.sarif_scope.specs.Told.{facts_by};
ghost use Rattle.sarif_scope.specs.declared.gated.GatedChange.{GatedChange};
ghost use Rattle.sarif_upkeep.specs.Internal.IsMatched.{IsFileOf};

use crate::asked::Asked;
use crate::file_read::FileRead;
use crate::impacts::tell_ruled;
use crate::keeping::keep_if_asked;
use crate::left::absent_states;
use crate::outside::{facts_of, narrow_if};
use crate::pairing::{PairedSides, Sides};
use crate::ruled::rule_if;
use crate::ruling::rule_sides;
use crate::telling::{tell_current, tell_left};
use sarif_conditions::{Decided, PolicyFacts};
use sarif_counts::Life;
use sarif_findings::Finding;
use sarif_model::MergeFault;
use sarif_scope::ChangeFacts;
use std::alloc::{AllocError, Global};
use std::thread::Threads;

/// Returns the findings of the written results of both sides, if they are requested.
fn tell_both<R: Threads + Sync>(
    rt: &R,
    alloc: Global,
    asked: &Asked<'_>,
    sides: &Sides<'_, '_, '_>,
) -> Result<Vec<Finding>, AllocError>
    requires together { (file : File)
        × (current_runs : List Placed) × (baseline_runs : List Placed)
        × AreTogether file current_runs baseline_runs
        sides.now.current.now sides.now.baselines.now }
    requires paired { IsPaired asked.now.options.now.checks.matching
        sides.now.current.now sides.now.baselines.now sides.now.paired.now }
    ensures { IfOk result (λ findings. (file : File) (current_runs baseline_runs : List Placed)
        → AreTogether file current_runs baseline_runs
        sides.now.current.now sides.now.baselines.now
        → findings.items
        ≡ told_of (reporting_in asked.now)
        (runs_by asked.now.options.now.checks.matching file current_runs baseline_runs)) }
{
    let paired = sides.paired;
    let mut findings = tell_current(rt, alloc, asked, sides.current, &paired.states)?;
    let states = absent_states(alloc, &paired.left)?;
    let mut absent = tell_left(rt, alloc, asked, sides.baselines, paired, &states)?;
    findings.append(&mut absent)?;
    Ok(findings)
}

/// Returns the findings of the written results, if they are requested; with a change, of those inside.
pub(crate) fn tell_results<R: Threads + Sync>(
    rt: &R,
    alloc: Global,
    asked: &Asked<'_>,
    sides: &Sides<'_, '_, '_>,
) -> Result<Vec<Finding>, AllocError>
    requires together { (file : File)
        × (current_runs : List Placed) × (baseline_runs : List Placed)
        × AreTogether file current_runs baseline_runs
        sides.now.current.now sides.now.baselines.now }
    requires paired { IsPaired asked.now.options.now.checks.matching
        sides.now.current.now sides.now.baselines.now sides.now.paired.now }
    requires narrowed { (change : Option GatedChange) × AreLookedAt change asked.now sides.now }
    ensures { IfOk result (λ findings. (file : File) (current_runs baseline_runs : List Placed)
        → AreTogether file current_runs baseline_runs
        sides.now.current.now sides.now.baselines.now
        → (change : Option GatedChange) → AreLookedAt change asked.now sides.now
        → findings.items
        ≡ told_by change (reporting_in asked.now)
        (runs_by asked.now.options.now.checks.matching file current_runs baseline_runs)) }
{
    match sides.narrowed {
        Some(narrowed) => tell_current(rt, alloc, asked, sides.current, &narrowed.states),
        None => tell_both(rt, alloc, asked, sides),
    }
}

/// Returns the findings of the written results, if they are requested: with a policy those of the results that its conditions
/// report, otherwise with a change those of the results inside.
pub(crate) fn tell_sides<R: Threads + Sync>(
    rt: &R,
    alloc: Global,
    asked: &Asked<'_>,
    sides: &Sides<'_, '_, '_>,
) -> Result<Vec<Finding>, AllocError>
    requires together { (file : File)
        × (current_runs : List Placed) × (baseline_runs : List Placed)
        × AreTogether file current_runs baseline_runs
        sides.now.current.now sides.now.baselines.now }
    requires paired { IsPaired asked.now.options.now.checks.matching
        sides.now.current.now sides.now.baselines.now sides.now.paired.now }
    requires narrowed { (change : Option GatedChange) × AreLookedAt change asked.now sides.now }
    requires each { (ruling : Ruling) → option_map (λ d. d.now) sides.now.decided ≡ Some ruling
        → length ruling.impacts ≡ length sides.now.current.now.drafts.items
        + length sides.now.paired.now.left.items }
    ensures { IfOk result (λ findings. (file : File) (current_runs baseline_runs : List Placed)
        → AreTogether file current_runs baseline_runs
        sides.now.current.now sides.now.baselines.now
        → (change : Option GatedChange) → AreLookedAt change asked.now sides.now
        → (conditions : Option (List GateCondition))
        → option_map (λ d. d.now) sides.now.decided
        ≡ decided_by conditions (matched_in asked.now.options.now.checks.matching
        file change current_runs baseline_runs)
        → findings.items ≡ told_in conditions (matched_in
        asked.now.options.now.checks.matching file change current_runs baseline_runs)
        (reporting_in asked.now)
        (runs_by asked.now.options.now.checks.matching file current_runs baseline_runs)) }
{
    match sides.decided {
        Some(decided) => tell_ruled(rt, alloc, asked, sides, decided.impacts.as_slice()),
        None => tell_results(rt, alloc, asked, sides),
    }
}

/// Returns what the gate says about the conditions, if they decide something.
fn facts_in(decided: Option<Decided>) -> Option<PolicyFacts>
    ensures { result ≡ option_map (λ ruling. ruling.facts) decided }
{
    match decided {
        Some(decided) => Some(decided.facts),
        None => None,
    }
}

/// What is reported about matched results, what the gate says about a change and a policy, and what is for later merges.
#[derive(Drop)]
pub(crate) struct ReportedSides {
    pub(crate) findings: Vec<Finding>,
    pub(crate) change: Option<ChangeFacts>,
    pub(crate) ruling: Option<PolicyFacts>,
    pub(crate) life: Life,
}

/// Returns what is reported about matched results and what is for later merges, with what a change and the conditions of
/// a policy make of them, if there are such.
pub(crate) fn report_sides<R: Threads + Sync>(
    rt: &R,
    alloc: Global,
    sides: &PairedSides<'_, '_>,
    rules: &FileRead<'_>,
    asked: &Asked<'_>,
) -> Result<ReportedSides, MergeFault>
    requires read { IsFileOf (bytes_of rules.now) rules.now.file.now }
    requires together { (current_runs : List Placed) × (baseline_runs : List Placed)
        × AreTogether rules.now.file.now current_runs baseline_runs
        sides.now.current sides.now.baselines }
    requires paired { IsPaired asked.now.options.now.checks.matching
        sides.now.current sides.now.baselines sides.now.paired }
    ensures findings { IfOk result (λ reported. (current_runs baseline_runs : List Placed)
        → AreTogether rules.now.file.now current_runs baseline_runs
        sides.now.current sides.now.baselines
        → reported.findings.items ≡ told_for rules.now asked.now current_runs baseline_runs) }
    ensures change { IfOk result (λ reported. (current_runs baseline_runs : List Placed)
        → AreTogether rules.now.file.now current_runs baseline_runs
        sides.now.current sides.now.baselines
        → reported.change ≡ facts_by (change_in rules.now) asked.now.options.now.policy
        (runs_by asked.now.options.now.checks.matching rules.now.file.now
        current_runs baseline_runs)) }
    ensures ruling { IfOk result (λ reported. (current_runs baseline_runs : List Placed)
        → AreTogether rules.now.file.now current_runs baseline_runs
        sides.now.current sides.now.baselines
        → reported.ruling ≡ ruled_for rules.now asked.now current_runs baseline_runs) }
    ensures kept { (current_runs baseline_runs : List Placed)
        → AreTogether rules.now.file.now current_runs baseline_runs
        sides.now.current sides.now.baselines
        → IfOk result (λ reported. IsKept (chosen_merge (policy_in rules.now)
        asked.now.options.now.checks rules.now.file.now (bytes_of rules.now) (change_in rules.now)
        asked.now.options.now.policy (choice_in asked.now) current_runs baseline_runs)
        (upkeep_in asked.now) reported.life) }
    ensures unkept { (current_runs baseline_runs : List Placed)
        → AreTogether rules.now.file.now current_runs baseline_runs
        sides.now.current sides.now.baselines
        → IfErr result (IsUnkept (chosen_merge (policy_in rules.now)
        asked.now.options.now.checks rules.now.file.now (bytes_of rules.now) (change_in rules.now)
        asked.now.options.now.policy (choice_in asked.now) current_runs baseline_runs)
        (upkeep_in asked.now)) }
{
    let (current, paired) = (&sides.current, &sides.paired);
    let narrowed = narrow_if(rt, alloc, rules.change, current, paired, asked.options)?;
    let change = facts_of(rules.change, &narrowed);
    let decided = rule_sides(rt, alloc, sides, rules, asked.options)?;
    let ruled = rule_if(alloc, &decided, paired)?;
    let lent = sides.lend(&narrowed, &decided, &ruled);
    let findings = tell_sides(rt, alloc, asked, &lent)?;
    let life = keep_if_asked(rt, alloc, &lent, rules, asked)?;
    Ok(ReportedSides {
        findings,
        change,
        ruling: facts_in(decided),
        life,
    })
}

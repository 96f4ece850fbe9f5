//! Which current results are chosen hits.
ghost use Rattle.std.specs.Prelude.{◌≡◌, ◌≤◌, ◌+◌, ◌⊎◌, ◌++◌, ◌∷◌, [], List, Option, Some, None, false, get_or, if◌then◌else◌, length, map, option_map, IfOk, IfErr, IfSome};
ghost use Rattle.sarif_choice.specs.Choice as said;
ghost use Rattle.sarif_entries.specs.File.{File};
ghost use Rattle.sarif_log.specs.LogBy.{runs_by};
ghost use Rattle.sarif_model.specs.MergeFault.{out_of_memory};
ghost use Rattle.sarif_model.specs.declared.merge_fault.At.{At as AnyPlace};
ghost use Rattle.sarif_prepare.specs.Chosen as chosen;
ghost use Rattle.sarif_prepare.specs.Internal.Keeping.{merge_by, AreDecided, AreLookedAt, AreOfRuns, AreRuled, HaveImpacts};
ghost use Rattle.sarif_prepare.specs.Internal.Marking as marked;
ghost use Rattle.sarif_prepare.specs.Internal.Outside.{states_by, AreNarrowed};
ghost use Rattle.sarif_prepare.specs.Internal.Together.{AreTogether, IsPaired};
ghost use Rattle.sarif_prepare.specs.Kept.{change_in};
ghost use Rattle.sarif_prepare.specs.Ruled.{matched_in, policy_in};
ghost use Rattle.sarif_prepare.specs.Told.{told_in};
ghost use Rattle.sarif_policy.specs.declared.condition.GateCondition.{GateCondition};
ghost use Rattle.sarif_runs.specs.Placed.{Placed};
ghost use Rattle.sarif_scope.specs.declared.gated.GatedChange.{GatedChange};
ghost use Rattle.sarif_upkeep.specs.Life.{no_hit};

use crate::asked::Asked;
use crate::file_read::FileRead;
use crate::impacts::report_of_all;
use crate::pairing::{Sides, states_shown};
use crate::reporting::tell_sides;
use sarif_choice::{Choosing, Unfit, choose};
use sarif_findings::{Finding, Reporting, Show};
use sarif_model::{At, Cause, Fault, MergeFault, Refusal, Sequence, State, Text};
use sarif_options::{Options, Policy};
use sarif_results::Draft;
use std::alloc::{AllocError, Global};
use std::thread::Threads;

/// A copy of these strings. It shares their bytes.
pub(crate) fn copy_of_texts(alloc: Global, texts: &[Text]) -> Result<Sequence<Text>, AllocError>
    ensures { IfOk result (λ copy. copy ≡ texts.now) }
{
    let mut copy = Sequence::new(alloc);
    for text in texts {
        copy.push(text.clone()?)?;
    }
    Ok(copy)
}

/// The text report of the hits alone.
fn hits_alone(alloc: Global, policy: Policy, roots: &[Text]) -> Result<Reporting, AllocError>
    ensures { IfOk result (λ reporting. reporting ≡ chosen.hits_alone policy roots.now) }
{
    Ok(Reporting {
        policy,
        show: Show::Hits,
        roots: copy_of_texts(alloc, roots)?,
    })
}

/// Returns the findings of all hits, current and absent: with a policy the hits of its conditions, otherwise with a change
/// those inside.
fn tell_hits<'o, R: Threads + Sync>(
    rt: &R,
    alloc: Global,
    sides: &Sides<'_, '_, '_>,
    options: &'o Options,
    reporting: &'o Reporting,
) -> Result<Vec<Finding>, AllocError>
    requires together { (file : File)
        × (current_runs : List Placed) × (baseline_runs : List Placed)
        × AreTogether file current_runs baseline_runs
        sides.now.current.now sides.now.baselines.now }
    requires paired { IsPaired options.now.checks.matching
        sides.now.current.now sides.now.baselines.now sides.now.paired.now }
    requires narrowed { (change : Option GatedChange) × AreNarrowed change options.now.policy
        sides.now.current.now sides.now.paired.now
        (option_map (λ n. n.now) sides.now.narrowed) }
    requires each { HaveImpacts sides.now }
    ensures { IfOk result (λ hits. (file : File) (current_runs baseline_runs : List Placed)
        → AreTogether file current_runs baseline_runs
        sides.now.current.now sides.now.baselines.now
        → (change : Option GatedChange) → AreNarrowed change options.now.policy
        sides.now.current.now sides.now.paired.now
        (option_map (λ n. n.now) sides.now.narrowed)
        → (conditions : Option (List GateCondition))
        → AreDecided conditions file change options.now.checks.matching sides.now
        current_runs baseline_runs
        → hits.items ≡ told_in conditions
        (matched_in options.now.checks.matching file change current_runs baseline_runs)
        (Some reporting.now)
        (runs_by options.now.checks.matching file current_runs baseline_runs)) }
{
    let alone = Asked {
        options,
        reporting: Some(reporting),
        upkeep: None,
        choice: None,
    };
    tell_sides(rt, alloc, &alone, sides)
}

/// Whether a result is shown.
fn is_told(reporting: &Reporting, draft: &Draft, state: Option<State>) -> bool
    ensures { result ≡ marked.is_told reporting.now draft.now state }
{
    match state {
        Some(state) => reporting.shows(state, draft.level) && !draft.suppressed,
        None => false,
    }
}

/// The mark of that number; false if there is none.
fn mark_at(marks: &[bool], number: usize) -> bool
    ensures { result ≡ get_or marks.now number false }
{
    match marks.get(number) {
        Some(mark) => *mark,
        None => false,
    }
}

/// Adds the mark of a result: the next one if it is shown, otherwise false. Returns the number of the next mark.
fn push_mark(
    spread: &mut Vec<bool>,
    marks: &[bool],
    next: usize,
    is_told: bool,
) -> Result<usize, AllocError>
    requires { next ≤ length spread.old.items }
    ensures pushed { IfOk result (λ _. spread.new.items
        ≡ spread.old.items ++ (if is_told then get_or marks.now next false else false) ∷ []) }
    ensures next { IfOk result (λ after. after ≡ (if is_told then next + 1 else next)) }
{
    if is_told {
        spread.push(mark_at(marks, next))?;
        Ok(next + 1)
    } else {
        spread.push(false)?;
        Ok(next)
    }
}

/// The marks of the results that are shown, and false for the others.
fn spread_told(
    alloc: Global,
    reporting: &Reporting,
    drafts: &[Draft],
    states: &[Option<State>],
    marks: &[bool],
) -> Result<Vec<bool>, AllocError>
    requires { length states.now ≡ length drafts.now }
    ensures { IfOk result (λ spread. spread.items
        ≡ marked.spread_told reporting.now drafts.now states.now marks.now 0) }
{
    let mut spread = Vec::with_capacity(alloc, drafts.len())?;
    let mut next = 0;
    for (number, draft) in drafts.iter().enumerate() {
        let told = is_told(reporting, draft, states[number]);
        next = push_mark(&mut spread, marks, next, told)?;
    }
    Ok(spread)
}

/// The marks of the hits among the results of logs, and false for the others.
fn spread_marks(
    alloc: Global,
    sides: &Sides<'_, '_, '_>,
    reporting: &Reporting,
    marks: &[bool],
) -> Result<Vec<bool>, AllocError>
    requires shown { length (states_by (option_map (λ n. n.now) sides.now.narrowed)
        sides.now.paired.now) ≡ length sides.now.current.now.drafts.items }
    requires ruled { IfSome (option_map (λ r. r.now) sides.now.ruled) (λ ruled.
        length ruled.states.items ≡ length sides.now.current.now.drafts.items) }
    ensures { IfOk result (λ spread. spread.items ≡ marked.spread_by
        (option_map (λ r. r.now) sides.now.ruled) reporting.now sides.now.current.now.drafts.items
        (states_by (option_map (λ n. n.now) sides.now.narrowed) sides.now.paired.now) marks.now) }
{
    let drafts = &sides.current.drafts;
    match sides.ruled {
        None => spread_told(alloc, reporting, drafts, states_shown(sides), marks),
        Some(ruled) => {
            let all = report_of_all(alloc, reporting)?;
            spread_told(alloc, &all, drafts, &ruled.states, marks)
        }
    }
}

/// The rejection of a choice with a place or a rule that fits no chosen hit.
fn rejection_of(refusal: Refusal<Unfit>) -> MergeFault
    ensures { result ≡ marked.rejected refusal }
{
    match refusal {
        Refusal::Fault(Unfit::Place(number)) => {
            MergeFault::with_place(At::Place(number), Cause::Of(Fault::NoHit))
        }
        Refusal::Fault(Unfit::Rule(number)) => {
            MergeFault::with_place(At::Rule(number), Cause::Of(Fault::NoHit))
        }
        Refusal::OutOfMemory => MergeFault::from(AllocError),
    }
}

/// Which of these hits are chosen.
fn choose_hits(
    alloc: Global,
    asked: &Asked<'_>,
    choosing: &Choosing,
    hits: &[Finding],
) -> Result<Vec<bool>, MergeFault>
    ensures ok { IfOk result
        (λ marks. marks.items ≡ map (said.is_chosen choosing.now.choice) hits.now) }
    ensures fits { IfOk result (λ _. said.unfit_of choosing.now.choice hits.now ≡ None) }
    ensures err { IfErr result (λ fault. (fault ≡ out_of_memory)
        ⊎ ((at : AnyPlace) × (fault ≡ no_hit at)
        × (option_map chosen.at_of (said.unfit_of choosing.now.choice hits.now) ≡ Some at))) }
{
    match choose(alloc, asked.options.seed, &choosing.choice, hits) {
        Ok(marks) => Ok(marks),
        Err(refusal) => Err(rejection_of(refusal)),
    }
}

/// Which current results are chosen hits.
fn mark<R: Threads + Sync>(
    rt: &R,
    alloc: Global,
    sides: &Sides<'_, '_, '_>,
    asked: &Asked<'_>,
    choosing: &Choosing,
) -> Result<Option<Vec<bool>>, MergeFault>
    requires together { (file : File)
        × (current_runs : List Placed) × (baseline_runs : List Placed)
        × AreTogether file current_runs baseline_runs
        sides.now.current.now sides.now.baselines.now }
    requires paired { IsPaired asked.now.options.now.checks.matching
        sides.now.current.now sides.now.baselines.now sides.now.paired.now }
    requires narrowed { (change : Option GatedChange) × AreLookedAt change asked.now sides.now }
    requires each { HaveImpacts sides.now }
    requires ruled { AreRuled sides.now }
    ensures ok { (file : File) (current_runs baseline_runs : List Placed)
        → AreTogether file current_runs baseline_runs
        sides.now.current.now sides.now.baselines.now
        → (change : Option GatedChange) → AreLookedAt change asked.now sides.now
        → (conditions : Option (List GateCondition)) → AreDecided conditions file change
        asked.now.options.now.checks.matching sides.now current_runs baseline_runs
        → IfOk result (λ marks. option_map (λ v. v.items) marks
        ≡ (marked.merge_with conditions file change asked.now choosing.now
        current_runs baseline_runs).chosen) }
    ensures fits { (file : File) (current_runs baseline_runs : List Placed)
        → AreTogether file current_runs baseline_runs
        sides.now.current.now sides.now.baselines.now
        → (change : Option GatedChange) → AreLookedAt change asked.now sides.now
        → (conditions : Option (List GateCondition)) → AreDecided conditions file change
        asked.now.options.now.checks.matching sides.now current_runs baseline_runs
        → IfOk result (λ _. (marked.merge_with conditions file change asked.now choosing.now
        current_runs baseline_runs).misfit ≡ None) }
    ensures err { (file : File) (current_runs baseline_runs : List Placed)
        → AreTogether file current_runs baseline_runs
        sides.now.current.now sides.now.baselines.now
        → (change : Option GatedChange) → AreLookedAt change asked.now sides.now
        → (conditions : Option (List GateCondition)) → AreDecided conditions file change
        asked.now.options.now.checks.matching sides.now current_runs baseline_runs
        → IfErr result (λ fault. (fault ≡ out_of_memory)
        ⊎ ((at : AnyPlace) × (fault ≡ no_hit at) × ((marked.merge_with conditions file change
        asked.now choosing.now current_runs baseline_runs).misfit ≡ Some at))) }
{
    let reporting = hits_alone(alloc, asked.options.policy, choosing.roots.as_slice())?;
    let hits = tell_hits(rt, alloc, sides, asked.options, &reporting)?;
    let marks = choose_hits(alloc, asked, choosing, &hits)?;
    let spread = spread_marks(alloc, sides, &reporting, &marks)?;
    Ok(Some(spread))
}

/// Returns which current results are chosen hits, if not all hits are.
pub(crate) fn mark_if_chosen<R: Threads + Sync>(
    rt: &R,
    alloc: Global,
    sides: &Sides<'_, '_, '_>,
    rules: &FileRead<'_>,
    asked: &Asked<'_>,
) -> Result<Option<Vec<bool>>, MergeFault>
    requires together { (current_runs : List Placed) × (baseline_runs : List Placed)
        × AreOfRuns rules.now sides.now current_runs baseline_runs }
    requires paired { IsPaired asked.now.options.now.checks.matching
        sides.now.current.now sides.now.baselines.now sides.now.paired.now }
    requires narrowed { AreLookedAt (change_in rules.now) asked.now sides.now }
    requires each { HaveImpacts sides.now }
    requires ruled { AreRuled sides.now }
    requires decided { (current_runs baseline_runs : List Placed)
        → AreOfRuns rules.now sides.now current_runs baseline_runs
        → AreDecided (policy_in rules.now) rules.now.file.now (change_in rules.now)
        asked.now.options.now.checks.matching sides.now current_runs baseline_runs }
    ensures ok { (current_runs baseline_runs : List Placed)
        → AreOfRuns rules.now sides.now current_runs baseline_runs
        → IfOk result (λ marks. option_map (λ v. v.items) marks
        ≡ (merge_by rules.now asked.now current_runs baseline_runs).chosen) }
    ensures fits { (current_runs baseline_runs : List Placed)
        → AreOfRuns rules.now sides.now current_runs baseline_runs
        → IfOk result
        (λ _. (merge_by rules.now asked.now current_runs baseline_runs).misfit ≡ None) }
    ensures err { (current_runs baseline_runs : List Placed)
        → AreOfRuns rules.now sides.now current_runs baseline_runs
        → IfErr result (λ fault. (fault ≡ out_of_memory)
        ⊎ ((at : AnyPlace) × (fault ≡ no_hit at)
        × ((merge_by rules.now asked.now current_runs baseline_runs).misfit ≡ Some at))) }
{
    match asked.choice {
        None => Ok(None),
        Some(choosing) => mark(rt, alloc, sides, asked, choosing),
    }
}

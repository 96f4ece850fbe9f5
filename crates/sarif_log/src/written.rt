//! Writing the log: its gate and its text.
ghost use Rattle.std.specs.Prelude.{◌≡◌, ◌+◌, ◌++◌, Bool, List, Option, IfOk, Ok, false, length, map, option_map, string_bytes};
ghost use Rattle.serde_json.specs.Data.{Data};
ghost use Rattle.serde_json.specs.View.{view};
ghost use Rattle.serde_json.specs.Written.{compact_text, has_float};
ghost use Rattle.sarif_log.specs.Log.{log_with};
ghost use Rattle.sarif_log.specs.Internal.Side.{IsSide, texts_of_left, texts_of_runs};
ghost use Rattle.sarif_log.specs.Beside.{IsMadeBy, IsToldBy};
ghost use Rattle.sarif_counts.specs.Counts.{count_at};
ghost use Rattle.sarif_scope.specs.Told.{facts_by};
ghost use Rattle.sarif_scope.specs.Told as said;
ghost use Rattle.sarif_scope.specs.declared.gated.GatedChange.{GatedChange};
ghost use Rattle.sarif_log.specs.Counted.{IsLogWith};
ghost use Rattle.sarif_log.specs.Copies.{naming};
ghost use Rattle.sarif_log.specs.Ruled.{verdict_ruled};
ghost use Rattle.sarif_log.specs.Internal.Ruled.{gate_said};
ghost use Rattle.sarif_log.specs.Internal.Copied.{baseline_marks, counted_if, current_marks, places_by};
ghost use Rattle.sarif_log.specs.Internal.Texts.{tallied};
ghost use Rattle.sarif_model.specs.declared.kinds.Level.{Level as Grade};
ghost use Rattle.sarif_model.specs.declared.kinds.State.{State as Stand};
ghost use Rattle.sarif_log.specs.Internal.Written.{AreWrittenWith};

use crate::copies::{CopyPlace, name_if};
use crate::counting::count_sides;
use crate::facts::Facts;
use crate::merged::Merged;
use crate::merged_text::{Side, log_text};
use crate::places::list_places;
use crate::prepared::Prepared;
use sarif_conditions::{PolicyFacts, gate_value_of_policy, verdict_of_policy};
use sarif_counts::{Counts, Life, Verdict};
use sarif_findings::Finding;
use sarif_model::Text;
use sarif_options::{Options, Policy};
use sarif_scope::{ChangeFacts, gate_value_told, verdict_told};
use serde_json::Value;
use std::alloc::{AllocError, Global};
use std::thread;
use std::thread::Threads;

/// Returns the text of the log with this gate, made in a separate thread while this one does something else.
fn text_beside<R: Threads + Sync, T: Drop, Say: FnOnce() -> T>(
    rt: &R,
    alloc: Global,
    gate: Value,
    current: Side,
    baseline: Side,
    say: Say,
) -> (Result<String, AllocError>, T)
    requires gate { has_float (view gate) ≡ false }
    requires current { IsSide current }
    requires baseline { IsSide baseline }
    requires says { Say.IsAlwaysCallable say }
    ensures text { IfOk result.0 (λ s. (runs : List Data)
        → map compact_text runs ≡ texts_of_runs current ++ texts_of_left baseline
        → string_bytes s ≡ compact_text (log_with (view gate) runs)) }
    ensures said { Say.post say result.1 }
{
    let write = move || -> Result<String, AllocError>
        requires gate { has_float (view gate) ≡ false }
        requires current { IsSide current }
        requires baseline { IsSide baseline }
        ensures { IfOk result (λ s. (runs : List Data)
            → map compact_text runs ≡ texts_of_runs current ++ texts_of_left baseline
            → string_bytes s ≡ compact_text (log_with (view gate) runs)) }
    { log_text(alloc, &gate, current, baseline) };
    thread::join(rt, write, say)
}

/// The gate object: that of the options, or that of the conditions of a policy if there is one.
fn gate_object(
    alloc: Global,
    counts: &Counts,
    prepared: &Prepared,
    policy: &Policy,
) -> Result<Value, AllocError>
    ensures value { IfOk result (λ v. view v ≡ gate_said prepared.now.ruling prepared.now.change
        (count_at counts.now) policy.now prepared.now.without prepared.now.unused) }
    ensures whole { IfOk result (λ v. has_float (view v) ≡ false) }
{
    let (without, unused) = (prepared.without, prepared.unused);
    let change = &prepared.change;
    match &prepared.ruling {
        None => gate_value_told(alloc, counts, policy, without, unused, change),
        Some(facts) => gate_value_of_policy(alloc, counts, facts, without, unused, change),
    }
}

/// The gate object, which names these copies if there is a list of them.
fn named_gate(
    alloc: Global,
    counts: &Counts,
    prepared: &Prepared,
    policy: &Policy,
    places: &Option<Vec<CopyPlace>>,
) -> Result<Value, AllocError>
    ensures value { IfOk result (λ v. view v
        ≡ naming (option_map (λ list. list.items) places.now)
        (gate_said prepared.now.ruling prepared.now.change (count_at counts.now) policy.now
        prepared.now.without prepared.now.unused)) }
    ensures whole { IfOk result (λ v. has_float (view v) ≡ false) }
{
    let gate = gate_object(alloc, counts, prepared, policy)?;
    name_if(alloc, gate, places)
}

/// Returns the number of copies, if there is a list of them.
fn count_places(places: &Option<Vec<CopyPlace>>) -> Option<u64>
    ensures { result ≡ option_map length (option_map (λ list. list.items) places.now) }
{
    match places {
        Some(list) => Some(list.len() as u64),
        None => None,
    }
}

/// The numbers of a log: what its gate counts and says about a change and a policy, how many of its runs have no
/// results, how many entries of the suppression file are unused and how many of these are expired, and how many copies
/// it has if these are known.
#[derive(Drop)]
struct LogNumbers {
    counts: Counts,
    change: Option<ChangeFacts>,
    ruling: Option<PolicyFacts>,
    without: u32,
    unused: u32,
    expired: u32,
    copies: Option<u64>,
}

/// What is counted in a log before its text is made, and its gate.
#[derive(Drop)]
struct Weighed {
    counts: Counts,
    copies: Option<u64>,
    gate: Value,
}

/// Returns the counts of the results that are written, without the copies if they are known, and the gate.
#[tactic(auto, using(crate::proofs::Uncopied::flags_are))]
fn weigh<R: Threads + Sync>(
    rt: &R,
    alloc: Global,
    prepared: &Prepared,
    options: &Options,
) -> Result<Weighed, AllocError>
    ensures counts { IfOk result (λ made. (s : Stand) (l : Grade) (b : Bool)
        → count_at made.counts s l b
        ≡ tallied prepared.now.current.drafts.items
        (counted_if (current_marks prepared.now.copies) prepared.now.current.states.items)
        s l b
        + tallied prepared.now.baseline.drafts.items
        (counted_if (baseline_marks prepared.now.copies) prepared.now.baseline.states.items)
        s l b) }
    ensures gate { IfOk result (λ made. view made.gate
        ≡ naming (places_by prepared.now.copies prepared.now.current prepared.now.baseline)
        (gate_said prepared.now.ruling prepared.now.change (count_at made.counts)
        options.now.policy prepared.now.without prepared.now.unused)) }
    ensures whole { IfOk result (λ made. has_float (view made.gate) ≡ false) }
    ensures copies { IfOk result (λ made. made.copies ≡ option_map length
        (places_by prepared.now.copies prepared.now.current prepared.now.baseline)) }
{
    let Prepared {
        current,
        baseline,
        copies,
        ..
    } = prepared;
    let counts = count_sides(rt, alloc, current, baseline, copies, options.workers)?;
    let places = list_places(alloc, current, baseline, copies)?;
    let gate = named_gate(alloc, &counts, prepared, &options.policy, &places)?;
    let copies = count_places(&places);
    Ok(Weighed {
        counts,
        copies,
        gate,
    })
}

/// The verdict: that of the options, or that of the conditions of a policy if there is one.
fn verdict_of(numbers: &LogNumbers, policy: &Policy) -> Verdict
    ensures { result ≡ verdict_ruled numbers.now.ruling
        (said.verdict_told numbers.now.change (count_at numbers.now.counts) policy.now) }
{
    match &numbers.ruling {
        None => verdict_told(&numbers.counts, policy, &numbers.change),
        Some(facts) => verdict_of_policy(facts),
    }
}

/// The facts of a merge: those of its log, its findings and what is for later merges.
fn facts_of<'m>(numbers: &'m LogNumbers, findings: &'m Vec<Finding>, life: &'m Life) -> Facts<'m>
    ensures counts { result.counts.now ≡ numbers.now.counts }
    ensures without { result.without ≡ numbers.now.without }
    ensures unused { result.unused ≡ numbers.now.unused }
    ensures expired { result.expired ≡ numbers.now.expired }
    ensures findings { result.findings.now ≡ findings.now }
    ensures change { result.change ≡ numbers.now.change }
    ensures ruling { option_map (λ facts. facts.now) result.ruling ≡ numbers.now.ruling }
    ensures copies { result.copies ≡ numbers.now.copies }
    ensures life { result.life.now ≡ life.now }
{
    Facts {
        counts: &numbers.counts,
        without: numbers.without,
        unused: numbers.unused,
        expired: numbers.expired,
        findings,
        change: numbers.change,
        ruling: numbers.ruling.as_ref(),
        copies: numbers.copies,
        life,
    }
}

/// The merged log with this text.
fn merged_of(
    log: Text,
    numbers: LogNumbers,
    verdict: Verdict,
    findings: Vec<Finding>,
    life: Life,
) -> Merged
    ensures log { result.log ≡ log }
    ensures counts { result.counts ≡ numbers.counts }
    ensures verdict { result.verdict ≡ verdict }
    ensures change { result.change ≡ numbers.change }
    ensures ruling { result.ruling ≡ numbers.ruling }
    ensures without { result.without ≡ numbers.without }
    ensures unused { result.unused ≡ numbers.unused }
    ensures expired { result.expired ≡ numbers.expired }
    ensures findings { result.findings ≡ findings }
    ensures copies { result.copies ≡ numbers.copies }
    ensures life { result.life ≡ life }
{
    let LogNumbers {
        counts,
        change,
        ruling,
        without,
        unused,
        expired,
        copies,
    } = numbers;
    Merged {
        log,
        counts,
        verdict,
        change,
        ruling,
        without,
        unused,
        expired,
        findings,
        copies,
        life,
    }
}

/// Returns the log of what was prepared, with its gate, with what is for later merges, and what `tell` returns for
/// the facts of the merge, which runs while the text is made.
pub(crate) fn write_log<
    R: Threads + Sync,
    B: Drop,
    Tell: FnOnce(&Facts<'_>) -> Result<B, AllocError>,
>(
    rt: &R,
    alloc: Global,
    prepared: Prepared,
    options: &Options,
    tell: Tell,
) -> Result<(Merged, B), AllocError>
    requires tells { Tell.IsAlwaysCallable tell }
    ensures log { IfOk result (λ made. (runs counted : List Data) (change : Option GatedChange)
        → AreWrittenWith prepared.copies prepared.current prepared.baseline runs counted
        → prepared.change ≡ facts_by change options.now.policy counted
        → IsLogWith runs counted
        (places_by prepared.copies prepared.current prepared.baseline)
        change options.now.policy prepared.ruling prepared.without prepared.unused made.0) }
    ensures expired { IfOk result (λ made. made.0.expired ≡ prepared.expired) }
    ensures findings { IfOk result (λ made. made.0.findings.items ≡ prepared.findings.items) }
    ensures life { IfOk result (λ made. made.0.life ≡ prepared.life) }
    ensures told { IfOk result (λ made. IsMadeBy Tell.FnOnce tell made.0 (Ok made.1)) }
{
    let weighed = weigh(rt, alloc, &prepared, options)?;
    let Prepared {
        current,
        baseline,
        without,
        unused,
        expired,
        findings,
        change,
        ruling,
        life,
        spent,
        ..
    } = prepared;
    let numbers = LogNumbers {
        counts: weighed.counts,
        change,
        ruling,
        without,
        unused,
        expired,
        copies: weighed.copies,
    };
    let verdict = verdict_of(&numbers, &options.policy);
    let facts = facts_of(&numbers, &findings, &life);
    let say = move || -> Result<B, AllocError>
        requires { Tell.IsAlwaysCallable tell }
        ensures { IsToldBy Tell.FnOnce tell facts.entry result }
    {
        drop(spent);
        tell(&facts)
    };
    let (text, told) = text_beside(rt, alloc, weighed.gate, current, baseline, say);
    let log = Text::from_string(text?)?;
    let merged = merged_of(log, numbers, verdict, findings, life);
    Ok((merged, told?))
}

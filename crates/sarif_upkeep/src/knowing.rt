//! The known log.
ghost use Rattle.std.specs.Prelude.{◌≡◌, ◌≤◌, ◌⊎◌, ◌++◌, [], drop, length, map, take, IfOk, IfErr, OnOk, ◌||◌};
ghost use Rattle.std.specs.Option.{option_map_or};
ghost use Rattle.sarif_model.specs.FirstFault.{first};
ghost use Rattle.sarif_model.specs.MergeFault.{out_of_memory};
ghost use Rattle.sarif_model.specs.Limits.{most_results};
ghost use Rattle.sarif_model.specs.Run.{results_total};
ghost use Rattle.sarif_runs.specs.Judging.{run_values};
ghost use Rattle.sarif_runs.specs.Internal.Opened.{placed_of};
ghost use Rattle.sarif_results.specs.Drafts.{applied_of};
ghost use Rattle.sarif_accept.specs.Heard.{heard_of};
ghost use Rattle.sarif_known.specs.Chosen.{all_chosen, results_among};
ghost use Rattle.sarif_upkeep.specs.Internal.IsMatched.{IsMatched};
ghost use Rattle.sarif_upkeep.specs.Known as said;
ghost use Rattle.sarif_upkeep.specs.Merge.{present_counts, present_total, Merge};
ghost use Rattle.sarif_upkeep.specs.ReadBack.{IsKnownLog};

use crate::matched::{Before, Matched};
use sarif_accept::Heard;
use sarif_copies::list_alike;
use sarif_counts::KnownLog;
use sarif_heard::heard_in;
use sarif_known::{Choice, KnownRun, Results, keep_run, know_run, known_text};
use sarif_model::{MergeFault, Record, Text};
use sarif_options::Knowing;
use sarif_runs::OpenedRun;
use std::alloc::{AllocError, Global};
use std::hash::RandomState;

/// Whether new hits and new suppressed results become known too.
fn adopts(knowing: Knowing) -> bool
    ensures { result ≡ said.adopts knowing }
{
    match knowing {
        Knowing::Matched => false,
        Knowing::Adopted => true,
    }
}

/// The first results, and the others.
fn split_results<'a, 's>(
    results: Results<'a, 's>,
    count: usize,
) -> (Results<'a, 's>, Results<'a, 's>)
    requires few { count ≤ length results.records.now }
    requires standings { length results.standings.now ≡ length results.records.now }
    requires drafts { length results.drafts.now ≡ length results.records.now }
    ensures records { result.0.records.now ≡ take count results.entry.records.now }
    ensures standings { result.0.standings.now ≡ take count results.entry.standings.now }
    ensures drafts { result.0.drafts.now ≡ take count results.entry.drafts.now }
    ensures other_records { result.1.records.now ≡ drop count results.entry.records.now }
    ensures other_standings { result.1.standings.now ≡ drop count results.entry.standings.now }
    ensures other_drafts { result.1.drafts.now ≡ drop count results.entry.drafts.now }
{
    let (records, other_records) = results.records.split_at(count);
    let (standings, other_standings) = results.standings.split_at(count);
    let (drafts, other_drafts) = results.drafts.split_at(count);
    let these = Results {
        records,
        standings,
        drafts,
    };
    let others = Results {
        records: other_records,
        standings: other_standings,
        drafts: other_drafts,
    };
    (these, others)
}

/// For each of these input runs the results that become known; `results` are those of all these runs.
fn known_now<'m>(
    alloc: Global,
    choice: &Choice<'_>,
    runs: &'m [OpenedRun<'_, '_>],
    results: Results<'m, '_>,
) -> Result<Vec<KnownRun<'m>>, AllocError>
    requires few { length results.records.now ≤ most_results }
    requires records { length results.records.now
        ≡ results_total (run_values (map placed_of runs.now)) }
    requires standings { length results.standings.now ≡ length results.records.now }
    requires drafts { map (λ draft. draft.applied) results.drafts.now
        ≡ map (applied_of choice.now.file.now) results.records.now }
    ensures { IfOk result (λ chosen. all_chosen chosen.items
        ≡ said.chosen_now choice.now.file.now choice.now.policy choice.now.adopt
        (run_values (map placed_of runs.now)) results.entry.records.now
        results.entry.standings.now) }
{
    let mut rest = results;
    let mut chosen = Vec::with_capacity(alloc, runs.len())?;
    for run in runs {
        let (these, others) = split_results(rest, run.len() as usize);
        chosen.push(know_run(alloc, choice, run.tool(), &these)?)?;
        rest = others;
    }
    Ok(chosen)
}

/// Adds the results of a run.
fn push_results<'m>(list: &mut Vec<&'m Record>, records: &[&'m Record]) -> Result<(), AllocError>
    ensures { OnOk result (map (λ r. r.now) list.new.items
        ≡ map (λ r. r.now) list.old.items ++ map (λ r. r.now) records.now) }
{
    for found in records {
        list.push(*found)?;
    }
    Ok(())
}

/// The results of these runs.
fn list_results<'m>(alloc: Global, runs: &[KnownRun<'m>]) -> Result<Vec<&'m Record>, AllocError>
    ensures { IfOk result (λ list. map (λ r. r.now) list.items
        ≡ said.records_among (all_chosen runs.now)) }
{
    let mut list = Vec::new(alloc);
    for run in runs {
        push_results(&mut list, &run.records)?;
    }
    Ok(list)
}

/// Whether a baseline result with these marks doesn't stay known: it is matched, or alike to a result that is known.
fn is_gone(is_taken: bool, is_alike: bool) -> bool
    ensures { result ≡ (is_taken || is_alike) }
{
    is_taken || is_alike
}

/// Which baseline results are matched or alike to one of the results of these runs.
fn matched_or_alike<'m>(
    alloc: Global,
    seed: RandomState,
    now: &[KnownRun<'m>],
    before: &Before<'m, '_, '_>,
) -> Result<Vec<bool>, AllocError>
    requires { length before.now.taken.now ≡ length before.now.records.now }
    ensures gone { IfOk result (λ gone. gone.items ≡ said.matched_or_alike
        (said.records_among (all_chosen now.now)) before.now.records.now before.now.taken.now) }
    ensures count { IfOk result (λ gone. length gone.items ≡ length before.now.records.now) }
{
    let others = list_results(alloc, now)?;
    let alike = list_alike(alloc, seed, &others, before.records)?;
    let mut gone = Vec::with_capacity(alloc, alike.len())?;
    for (number, taken) in before.taken.iter().enumerate() {
        gone.push(is_gone(*taken, alike[number]))?;
    }
    Ok(gone)
}

/// Which baseline results don't stay known, regardless of their tools: without a list, the matched ones.
fn gone_if_once<'m>(
    alloc: Global,
    seed: RandomState,
    matched: &Matched<'m, '_, '_>,
    now: &[KnownRun<'m>],
) -> Result<Option<Vec<bool>>, AllocError>
    requires { length matched.now.before.taken.now ≡ length matched.now.before.records.now }
    ensures gone { IfOk result (λ gone.
        option_map_or (λ list. list.items) gone matched.now.before.taken.now
        ≡ said.gone_if matched.now.once (said.records_among (all_chosen now.now))
        matched.now.before.records.now matched.now.before.taken.now) }
    ensures count { IfOk result (λ gone.
        length (option_map_or (λ list. list.items) gone matched.now.before.taken.now)
        ≡ length matched.now.before.records.now) }
{
    if matched.once {
        let gone = matched_or_alike(alloc, seed, now, &matched.before)?;
        Ok(Some(gone))
    } else {
        Ok(None)
    }
}

/// The marks of this list, if there is one, otherwise these.
fn marks_or<'m>(list: &'m Option<Vec<bool>>, taken: &'m [bool]) -> &'m [bool]
    ensures { result.now ≡ option_map_or (λ list. list.items) list.now taken.now }
{
    match list {
        Some(list) => list.as_slice(),
        None => taken,
    }
}

/// For each baseline run the results that stay known, without those that are marked as gone.
fn known_before<'m>(
    alloc: Global,
    before: &Before<'m, '_, '_>,
    gone: &[bool],
    heard: &Heard,
) -> Result<Vec<KnownRun<'m>>, AllocError>
    requires counts { before.now.counts.now
        ≡ present_counts (run_values (map placed_of before.now.runs.now)) }
    requires few { length before.now.records.now ≤ most_results }
    requires records { length before.now.records.now
        ≡ present_total (run_values (map placed_of before.now.runs.now)) }
    requires gone { length gone.now ≡ length before.now.records.now }
    ensures { IfOk result (λ chosen. all_chosen chosen.items
        ≡ said.chosen_before (heard_of heard.now) (run_values (map placed_of before.now.runs.now))
        before.now.records.now gone.now) }
{
    let mut records = before.records;
    let mut left = gone;
    let mut chosen = Vec::with_capacity(alloc, before.runs.len())?;
    for (number, run) in before.runs.iter().enumerate() {
        let count = before.counts[number] as usize;
        let (these, others) = records.split_at(count);
        let (marks, other_marks) = left.split_at(count);
        let is_heard = heard.hears(Some(run.tool()));
        chosen.push(keep_run(alloc, run.tool(), these, marks, is_heard)?)?;
        records = others;
        left = other_marks;
    }
    Ok(chosen)
}

/// How many results these runs have.
fn count_results(runs: &[KnownRun<'_>]) -> usize
    requires { results_among (all_chosen runs.now) ≤ most_results }
    ensures count { result ≡ results_among (all_chosen runs.now) }
    ensures few { result ≤ most_results }
{
    let mut count = 0;
    for run in runs {
        count += run.records.len();
    }
    count
}

/// The known log of a merge, which is read as it is defined if its records are those of results that were read. It is
/// rejected if it has more bytes than a log may have.
pub(crate) fn remember(
    alloc: Global,
    seed: RandomState,
    matched: &Matched<'_, '_, '_>,
    knowing: Knowing,
) -> Result<KnownLog, MergeFault>
    requires { (m : Merge) × IsMatched m matched.now }
    ensures made { (m : Merge) → IsMatched m matched.now
        → IfOk result (λ log. log ≡ said.remembered m knowing) }
    ensures reads { (m : Merge) → IsMatched m matched.now
        → IfOk result (λ log. IsKnownLog m knowing log.text) }
    ensures sound { (m : Merge) → IsMatched m matched.now
        → IfOk result (λ _. said.known_faults m knowing ≡ []) }
    ensures refused { (m : Merge) → IsMatched m matched.now → IfErr result (λ fault.
        (fault ≡ out_of_memory) ⊎ (first (said.known_faults m knowing) ≡ Some fault)) }
{
    let heard = heard_in(alloc, seed, matched.current.runs)?;
    let choice = Choice {
        file: matched.file,
        policy: matched.policy,
        adopt: adopts(knowing),
    };
    let current = &matched.current;
    let results = Results {
        records: current.records,
        standings: current.standings,
        drafts: current.drafts,
    };
    let now = known_now(alloc, &choice, current.runs, results)?;
    let list = gone_if_once(alloc, seed, matched, &now)?;
    let gone = marks_or(&list, matched.before.taken);
    let before = known_before(alloc, &matched.before, gone, &heard)?;
    let chosen = count_results(&now);
    let kept = count_results(&before);
    let text = known_text(alloc, seed, matched.matching, matched.regions, now, before)?;
    Ok(KnownLog {
        text: Text::from_string(text)?,
        known: (chosen + kept) as u32,
        left_out: (matched.current.records.len() - chosen) as u32,
        kept: kept as u32,
    })
}

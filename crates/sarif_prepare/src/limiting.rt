//! Results that entries with `max` admit: what changes for them. Their drafts are made again with these entries.
ghost use Rattle.std.specs.Prelude.{◌≡◌, ◌<◌, ◌++◌, ◌∷◌, [], false, List, IfOk, OnOk, length, map, is_none, slice_index_or};
ghost use Rattle.std.specs.List.{All, list_all, flat_map};
ghost use Rattle.sarif_copies.specs.Copies.{copies_of, numbers_of, spread};
ghost use Rattle.sarif_model.specs.Run.{result_at, results_of};
ghost use Rattle.sarif_prepare.specs.Internal.Leftover.{found_at};
ghost use Rattle.sarif_prepare.specs.Internal.Limiting as said_again;
ghost use Rattle.sarif_prepare.specs.Internal.Limiting.{draft_of, drafts_again, AreChanges};
ghost use Rattle.sarif_prepare.specs.Internal.Apart.{AreChangesOnce};
ghost use Rattle.sarif_read.specs.Unmarked.{unmarked};
ghost use Rattle.sarif_results.specs.Internal.Judged.{placed_in, IsJudged};
ghost use Rattle.sarif_runs.specs.Internal.Opened.{placed_of};
ghost use Rattle.sarif_runs.specs.Internal.Spots.{IsSpotOf};
ghost use Rattle.sarif_runs.specs.Judging.{records_in, records_of, run_values};
ghost use Rattle.sarif_suppress.specs.Limited as said;
ghost use Rattle.sarif_suppress.specs.Limited.{all_admitted};

use crate::changes::{Changes, SplitDrafts, split_drafts};
use sarif_copies::Apart;
use sarif_entries::Entry;
use sarif_evidence::{MatchingVersion, as_matched};
use sarif_model::{Record, Sequence};
use sarif_results::{Draft, Judged, Outcome, draft_current};
use sarif_runs::{Item, OpenedRun, Spot, list_spots};
use sarif_suppress::Suppressions;
use std::alloc::{AllocError, Global};

// ---- one result

/// The record of a result that the entries with these numbers admit. Its strings are shared.
fn with_admitted(
    alloc: Global,
    found: &Record,
    admitted: Sequence<u32>,
) -> Result<Record, AllocError>
    ensures { IfOk result (λ limited. limited ≡ said.with_admitted found.now admitted) }
{
    let mut limited = as_matched(alloc, MatchingVersion::Two, found)?;
    limited.snippet = match &found.snippet {
        Some(text) => Some(text.clone()?),
        None => None,
    };
    limited.admitted = admitted;
    Ok(limited)
}

/// A current result with its record.
#[derive(Clone, Copy)]
struct CurrentResult<'w, 't: 'w, 'a: 't> {
    run: &'w OpenedRun<'t, 'a>,
    /// Its number in its run.
    seq: u32,
    record: &'w Record,
    ghost in_run: { seq < length (results_of (placed_of run.now).run) },
}

/// The draft of a current result, made with another record.
#[tactic(auto, using(sarif_results::proofs::WholeResults::result_whole))]
fn draft_again(
    alloc: Global,
    file: &Suppressions,
    found: &CurrentResult<'_, '_, '_>,
    limited: &Record,
) -> Result<Draft, AllocError>
    ensures { IfOk result (λ draft. draft ≡ draft_of file.now limited.now
        (result_at (placed_of found.now.run.now).run found.now.seq)) }
{
    let own = found.run.pick_result(alloc, found.seq, &["suppressions"])?;
    let node = found.run.node(found.seq);
    let draft = draft_current(alloc, node, own, limited, file)?;
    Ok(draft)
}

/// The same numbers.
fn same_numbers(alloc: Global, numbers: &[u32]) -> Result<Sequence<u32>, AllocError>
    ensures { IfOk result (λ same. same ≡ numbers.now) }
{
    let mut same = Sequence::new(alloc);
    for number in numbers {
        same.push(*number)?;
    }
    Ok(same)
}

/// The draft of a current result that the entries with these numbers admit, if there are some.
fn limited_draft(
    alloc: Global,
    file: &Suppressions,
    found: &CurrentResult<'_, '_, '_>,
    numbers: &[u32],
) -> Result<Option<Draft>, AllocError>
    ensures { IfOk result (λ again. again
        ≡ said_again.draft_again file.now found.now.«record».now numbers.now
        (result_at (placed_of found.now.run.now).run found.now.seq)) }
{
    if numbers.is_empty() {
        return Ok(None);
    }
    let limited = with_admitted(alloc, found.record, same_numbers(alloc, numbers)?)?;
    let draft = draft_again(alloc, file, found, &limited)?;
    Ok(Some(draft))
}

// ---- all results

/// The records of these outcomes.
fn list_records<'w>(alloc: Global, outcomes: &'w [Outcome]) -> Result<Vec<&'w Record>, AllocError>
    ensures { IfOk result (λ records. map (λ r. r.now) records.items
        ≡ records_in (map (λ o. o.item) outcomes.now)) }
{
    let mut records = Vec::with_capacity(alloc, outcomes.len())?;
    for outcome in outcomes {
        if let Item::Sound(record) = &outcome.item {
            records.push(record)?;
        }
    }
    Ok(records)
}

/// The records of the findings: `copies` says which results are copies.
fn list_findings<'w>(
    alloc: Global,
    records: Vec<&'w Record>,
    copies: &[bool],
) -> Result<Vec<&'w Record>, AllocError>
    requires { length records.items ≡ length copies.now }
    ensures { IfOk result (λ findings. findings.items ≡ unmarked copies.now records.entry.items) }
{
    let mut findings = Vec::new(alloc);
    let mut records = records.into_iter();
    for is_copy in copies {
        if let Some(found) = records.next() {
            if !*is_copy {
                findings.push(found)?;
            }
        }
    }
    Ok(findings)
}

/// The numbers at this position; none past the end.
fn numbers_at(
    alloc: Global,
    lists: &[Sequence<u32>],
    number: u32,
) -> Result<Sequence<u32>, AllocError>
    ensures { IfOk result (λ numbers. numbers ≡ slice_index_or lists.now number []) }
{
    match lists.get(number as usize) {
        Some(numbers) => same_numbers(alloc, numbers.as_slice()),
        None => Ok(Sequence::new(alloc)),
    }
}

/// For each result the numbers of its finding.
fn spread_admitted(
    alloc: Global,
    findings: &[u32],
    lists: &[Sequence<u32>],
) -> Result<Vec<Sequence<u32>>, AllocError>
    ensures { IfOk result (λ all. all.items ≡ spread [] findings.now lists.now) }
{
    let mut all = Vec::with_capacity(alloc, findings.len())?;
    for finding in findings {
        all.push(numbers_at(alloc, lists, *finding)?)?;
    }
    Ok(all)
}

/// The drafts of the results at these spots of `runs`, where they are made again: the entries of these numbers admit each.
fn list_drafts(
    alloc: Global,
    file: &Suppressions,
    runs: &[OpenedRun<'_, '_>],
    spots: &[Spot],
    records: &[&Record],
    lists: &[Sequence<u32>],
) -> Result<Vec<Option<Draft>>, AllocError>
    requires within { All (IsSpotOf (map placed_of runs.now)) spots.now }
    requires records { length records.now ≡ length spots.now }
    requires lists { length lists.now ≡ length spots.now }
    ensures { IfOk result (λ drafts. drafts.items
        ≡ drafts_again file.now (map (λ r. r.now) records.now) lists.now
        (map (found_at (map placed_of runs.now)) spots.now)) }
{
    let mut drafts = Vec::with_capacity(alloc, spots.len())?;
    for (number, spot) in spots.iter().enumerate() {
        let found = CurrentResult {
            run: &runs[spot.run as usize],
            seq: spot.seq,
            record: records[number],
        };
        drafts.push(limited_draft(alloc, file, &found, lists[number].as_slice())?)?;
    }
    Ok(drafts)
}

/// Whether none of the entries has a `max`.
fn have_no_limit(entries: &[Entry]) -> bool
    ensures { result ≡ list_all (λ e. is_none e.limit) entries.now }
{
    entries.iter().all(|entry| entry.limit.is_none())
}

/// What changes for the results of logs, if each is counted.
pub(crate) fn changes_of_all(
    alloc: Global,
    judged: &Judged<'_, '_>,
    file: &Suppressions,
) -> Result<Changes, AllocError>
    requires { IsJudged file.now false judged.now }
    ensures { IfOk result (AreChanges file.now (records_of (placed_in judged.now))
        (all_admitted file.now (records_of (placed_in judged.now)))
        (flat_map results_of (run_values (placed_in judged.now)))) }
{
    if have_no_limit(file.entries()) {
        return Ok(Changes {
            admitted: Vec::new(alloc),
            drafts: Vec::new(alloc),
        });
    }
    let records = list_records(alloc, &judged.outcomes)?;
    let admitted = file.admitted(alloc, &records)?;
    let spots = list_spots(alloc, &judged.runs)?;
    let drafts = list_drafts(alloc, file, &judged.runs, &spots, &records, &admitted)?;
    Ok(Changes { admitted, drafts })
}

/// What changes for the findings of logs, and the drafts of their copies, where they are made again.
#[derive(Drop)]
pub(crate) struct ChangesOnce {
    pub(crate) findings: Changes,
    pub(crate) copies: Vec<Option<Draft>>,
}

/// What changes for the results of logs, if copies aren't counted: for a copy as for its finding.
pub(crate) fn changes_once(
    alloc: Global,
    judged: &Judged<'_, '_>,
    apart: &Apart,
    file: &Suppressions,
) -> Result<ChangesOnce, AllocError>
    requires judged { IsJudged file.now false judged.now }
    requires copies { apart.now.copies.items ≡ copies_of (records_of (placed_in judged.now)) }
    requires numbers { apart.now.numbers.items ≡ numbers_of (records_of (placed_in judged.now)) }
    ensures { IfOk result (AreChangesOnce file.now (placed_in judged.now)) }
{
    if have_no_limit(file.entries()) {
        return Ok(ChangesOnce {
            findings: Changes {
                admitted: Vec::new(alloc),
                drafts: Vec::new(alloc),
            },
            copies: Vec::new(alloc),
        });
    }
    let records = list_records(alloc, &judged.outcomes)?;
    let all = list_records(alloc, &judged.outcomes)?;
    let found = list_findings(alloc, all, &apart.copies)?;
    let admitted = file.admitted(alloc, &found)?;
    let lists = spread_admitted(alloc, &apart.numbers, &admitted)?;
    let spots = list_spots(alloc, &judged.runs)?;
    let drafts = list_drafts(alloc, file, &judged.runs, &spots, &records, &lists)?;
    let SplitDrafts { findings, copies } = split_drafts(alloc, drafts, &apart.copies)?;
    let findings = Changes {
        admitted,
        drafts: findings,
    };
    Ok(ChangesOnce { findings, copies })
}

//! Where the copies of a merged log are.
ghost use Rattle.std.specs.Prelude.{◌≡◌, ◌<◌, ◌^◌, ◌++◌, [], IfOk, OnOk, length, option_map};
ghost use Rattle.sarif_log.specs.Copies.{place_if, places_from, places_in};
ghost use Rattle.sarif_log.specs.Internal.Copied.{marks_of_left, marks_of_parts, mask, masked, places_by, AreFlagsIf};
ghost use Rattle.sarif_log.specs.Internal.Side.{IsSide};
ghost use Rattle.sarif_log.specs.Internal.Texts.{counts_in_parts};

use crate::copies::CopyPlace;
use crate::merged_text::Side;
use crate::prepared::CopyFlags;
use crate::run_parts::RunParts;
use crate::runs_text::count_of;
use sarif_model::State;
use std::alloc::{AllocError, Global};

/// Adds a place, if it is marked.
fn push_if(
    places: &mut Vec<CopyPlace>,
    is_marked: bool,
    run: u64,
    number: u64,
) -> Result<(), AllocError>
    ensures { OnOk result
        (places.new.items ≡ places.old.items ++ place_if is_marked run number []) }
{
    if is_marked {
        places.push(CopyPlace {
            run,
            result: number,
        })?;
    }
    Ok(())
}

/// Adds the places of the marked results of a run.
fn push_in_run(places: &mut Vec<CopyPlace>, run: u64, marks: &[bool]) -> Result<(), AllocError>
    ensures { OnOk result (places.new.items ≡ places.old.items ++ places_in run 0 marks.now) }
{
    let mut number = 0;
    for is_marked in marks {
        push_if(places, *is_marked, run, number)?;
        number += 1;
    }
    Ok(())
}

/// The places of the copies in the runs of logs, which are the first runs of the merged log. The marks are those of all
/// their results, in order. Returns `AllocError` if memory runs out.
fn places_of_runs(
    alloc: Global,
    runs: &[RunParts],
    mut marks: &[bool],
) -> Result<Vec<CopyPlace>, AllocError>
    requires { length marks.now ≡ counts_in_parts runs.now }
    ensures { IfOk result
        (λ places. places.items ≡ places_from 0 (marks_of_parts runs.now marks.entry.now)) }
{
    let mut places = Vec::new(alloc);
    let mut number = 0;
    for parts in runs {
        let (these, later) = marks.split_at(count_of(parts));
        push_in_run(&mut places, number, these)?;
        number += 1;
        marks = later;
    }
    Ok(places)
}

/// Adds the places of the copies in runs of baselines. Only runs with a result are written, the first of them as run
/// `number`. The marks are those of all results, in order. Returns `AllocError` if memory runs out.
fn add_places_of_left(
    places: &mut Vec<CopyPlace>,
    mut number: u64,
    runs: &[RunParts],
    mut marks: &[bool],
) -> Result<(), AllocError>
    requires number { number < 2 ^ 63 }
    requires marks { length marks.now ≡ counts_in_parts runs.now }
    ensures { OnOk result (places.new.items ≡ places.old.items
        ++ places_from number (marks_of_left runs.now marks.entry.now)) }
{
    for parts in runs {
        let (these, later) = marks.split_at(count_of(parts));
        if !these.is_empty() {
            push_in_run(places, number, these)?;
            number += 1;
        }
        marks = later;
    }
    Ok(())
}

/// A state, or none if its result is marked.
fn unless_marked(state: Option<State>, is_marked: bool) -> Option<State>
    ensures { result ≡ mask is_marked state }
{
    if is_marked { None } else { state }
}

/// Returns the states of results, without those of marked results. Copies aren't counted, for example. Returns
/// `AllocError` if memory runs out.
pub fn mask_states(
    alloc: Global,
    states: &[Option<State>],
    marks: &[bool],
) -> Result<Vec<Option<State>>, AllocError>
    requires { length marks.now ≡ length states.now }
    ensures states { IfOk result (λ all. all.items ≡ masked marks.now states.now) }
    ensures count { IfOk result (λ all. length all.items ≡ length states.now) }
{
    let mut all = Vec::with_capacity(alloc, states.len())?;
    for (number, state) in states.iter().enumerate() {
        all.push(unless_marked(*state, marks[number]))?;
    }
    Ok(all)
}

/// Returns the places of the copies in the merged log, if copies aren't counted. Returns `AllocError` if memory runs
/// out.
pub(crate) fn list_places(
    alloc: Global,
    current: &Side,
    baseline: &Side,
    copies: &Option<CopyFlags>,
) -> Result<Option<Vec<CopyPlace>>, AllocError>
    requires current { IsSide current.now }
    requires baseline { IsSide baseline.now }
    requires flags { AreFlagsIf copies.now current.now baseline.now }
    ensures { IfOk result (λ places. option_map (λ list. list.items) places
        ≡ places_by copies.now current.now baseline.now) }
{
    let Some(flags) = copies else {
        return Ok(None);
    };
    let mut places = places_of_runs(alloc, &current.runs, &flags.current)?;
    let first = current.runs.len() as u64;
    add_places_of_left(&mut places, first, &baseline.runs, &flags.baseline)?;
    Ok(Some(places))
}

//! The runs of all baselines, with the records of their results.
ghost use Rattle.std.specs.Prelude.{◌≡◌, ◌≤◌, ◌++◌, ◌∷◌, [], true, IfOk, OnOk, map, length};
ghost use Rattle.std.specs.List.{AllByRecursion, flat_map};
ghost use Rattle.sarif_entries.specs.File.{File};
ghost use Rattle.sarif_runs.specs.Judging.{faults_of_runs, items_of, records_in, skips};
ghost use Rattle.sarif_runs.specs.Internal.Opened.{placed_of};
ghost use Rattle.sarif_prepare.specs.Internal.LeftParts.{present_counts};
ghost use Rattle.sarif_prepare.specs.Internal.Baselines.{with_spot, spots_with_record, AreBaselines};
ghost use Rattle.sarif_results.specs.Internal.Judged.{placed_in, IsJudged};

use sarif_model::Record;
use sarif_results::{Judged, Outcome};
use sarif_runs::{Item, OpenedRun, Spot, list_spots};
use std::alloc::{AllocError, Global};

/// The runs of baselines, the records of their results, and the spots of these results.
#[derive(Drop)]
pub(crate) struct Baselines<'t, 'a> {
    pub(crate) runs: Vec<OpenedRun<'t, 'a>>,
    /// How many results of each run have a record.
    pub(crate) counts: Vec<u32>,
    /// The records, in the order of runs and results.
    pub(crate) records: Vec<Record>,
    /// The place of the result of each record.
    pub(crate) spots: Vec<Spot>,
}

/// Records, and the places of their results.
#[derive(Drop)]
struct Recorded {
    records: Vec<Record>,
    spots: Vec<Spot>,
}

impl Recorded {
    /// Adds the record of a result with its place, where it has one.
    fn add(&mut self, item: Item, spot: Spot) -> Result<(), AllocError>
        ensures records { OnOk result
            (self.new.records.items ≡ self.old.records.items ++ records_in (item ∷ [])) }
        ensures spots { OnOk result
            (self.new.spots.items ≡ self.old.spots.items ++ with_spot item spot []) }
    {
        match item {
            Item::Sound(record) => {
                self.records.push(record)?;
                self.spots.push(spot)?;
            }
            Item::Bad(_) | Item::Skipped => {}
        }
        Ok(())
    }
}

/// Takes the records out of the outcomes of results at these spots.
fn take_recorded(
    alloc: Global,
    outcomes: Vec<Outcome>,
    spots: &[Spot],
) -> Result<Recorded, AllocError>
    requires { length spots.now ≡ length outcomes.items }
    ensures records { IfOk result
        (λ found. found.records.items ≡ records_in (map (λ o. o.item) outcomes.items)) }
    ensures spots { IfOk result (λ found. found.spots.items
        ≡ spots_with_record (map (λ o. o.item) outcomes.items) spots.now) }
{
    let mut found = Recorded {
        records: Vec::with_capacity(alloc, outcomes.len())?,
        spots: Vec::with_capacity(alloc, outcomes.len())?,
    };
    let mut number = 0;
    for outcome in outcomes {
        let Outcome { item, .. } = outcome;
        found.add(item, spots[number])?;
        number += 1;
    }
    Ok(found)
}

/// How many of the results have a record.
fn count_records(outcomes: &[Outcome]) -> usize
    ensures count { result ≡ length (records_in (map (λ o. o.item) outcomes.now)) }
    ensures few { result ≤ length outcomes.now }
{
    let mut count = 0;
    for outcome in outcomes {
        if matches!(outcome.item, Item::Sound(_)) {
            count += 1;
        }
    }
    count
}

/// Returns how many results of each baseline run have a record, if none has an error: the results that are not
/// already absent.
pub(crate) fn count_present(
    alloc: Global,
    runs: &[OpenedRun<'_, '_>],
    mut outcomes: &[Outcome],
) -> Result<Vec<u32>, AllocError>
    requires judged { map (λ o. o.item) outcomes.now ≡ flat_map items_of (map placed_of runs.now) }
    requires baselines { AllByRecursion (λ p. skips p.source ≡ true) (map placed_of runs.now) }
    requires faultless { faults_of_runs (map placed_of runs.now) ≡ [] }
    ensures { IfOk result (λ counts. counts.items ≡ present_counts (map placed_of runs.now)) }
{
    let mut counts = Vec::with_capacity(alloc, runs.len())?;
    for run in runs {
        let (these, later) = outcomes.split_at(run.len() as usize);
        counts.push(count_records(these) as u32)?;
        outcomes = later;
    }
    Ok(counts)
}

/// The runs of baselines.
pub(crate) fn gather_baselines<'t, 'a>(
    alloc: Global,
    judged: Judged<'t, 'a>,
) -> Result<Baselines<'t, 'a>, AllocError>
    requires { (file : File) × IsJudged file true judged }
    ensures { IfOk result (AreBaselines (placed_in judged.entry)) }
{
    let Judged { runs, outcomes } = judged;
    let counts = count_present(alloc, &runs, &outcomes)?;
    let places = list_spots(alloc, &runs)?;
    let Recorded { records, spots } = take_recorded(alloc, outcomes, &places)?;
    Ok(Baselines {
        runs,
        counts,
        records,
        spots,
    })
}

//! The runs of all logs, with what was judged of their results.
ghost use Rattle.std.specs.Prelude.{◌≡◌, ◌++◌, ◌∷◌, [], false, IfOk, OnOk, List, map};
ghost use Rattle.std.specs.List.{flat_map};
ghost use Rattle.sarif_entries.specs.File.{File};
ghost use Rattle.sarif_model.specs.Run.{results_of};
ghost use Rattle.sarif_runs.specs.Judging.{records_in, records_of, run_values};
ghost use Rattle.sarif_runs.specs.Placed.{Placed};
ghost use Rattle.sarif_suppress.specs.Limited.{all_admitted};
ghost use Rattle.sarif_prepare.specs.Internal.Halves.{drafts_in, with_draft, IsCurrent, IsFound};
ghost use Rattle.sarif_prepare.specs.Internal.Limiting.{AreChanges};
ghost use Rattle.sarif_results.specs.Internal.Judged.{placed_in, IsJudged};

use crate::changes::{Changes, change_drafts, change_records};
use sarif_model::Record;
use sarif_results::{Draft, Judged, Outcome};
use sarif_runs::{Item, OpenedRun};
use std::alloc::{AllocError, Global};

/// The runs of logs, and the records and drafts of their results.
#[derive(Drop)]
pub(crate) struct Half<'t, 'a> {
    pub(crate) runs: Vec<OpenedRun<'t, 'a>>,
    pub(crate) records: Vec<Record>,
    pub(crate) drafts: Vec<Draft>,
}

/// The records and the drafts of results.
#[derive(Drop)]
struct RecordsAndDrafts {
    records: Vec<Record>,
    drafts: Vec<Draft>,
}

/// Takes the records and the drafts out of outcomes.
fn take_found(alloc: Global, outcomes: Vec<Outcome>) -> Result<RecordsAndDrafts, AllocError>
    ensures records { IfOk result
        (λ found. found.records.items ≡ records_in (map (λ o. o.item) outcomes.items)) }
    ensures drafts { IfOk result (λ found. found.drafts.items ≡ drafts_in outcomes.items) }
{
    let mut records = Vec::with_capacity(alloc, outcomes.len())?;
    let mut drafts = Vec::with_capacity(alloc, outcomes.len())?;
    for outcome in outcomes {
        let Outcome { item, draft } = outcome;
        push_record(&mut records, item)?;
        push_draft(&mut drafts, draft)?;
    }
    Ok(RecordsAndDrafts { records, drafts })
}

/// Takes the drafts out of outcomes.
pub(crate) fn take_drafts(alloc: Global, outcomes: Vec<Outcome>) -> Result<Vec<Draft>, AllocError>
    ensures { IfOk result (λ drafts. drafts.items ≡ drafts_in outcomes.items) }
{
    let RecordsAndDrafts { drafts, .. } = take_found(alloc, outcomes)?;
    Ok(drafts)
}

/// Adds the record of a result, where it has one.
fn push_record(records: &mut Vec<Record>, item: Item) -> Result<(), AllocError>
    ensures { OnOk result (records.new.items ≡ records.old.items ++ records_in (item ∷ [])) }
{
    match item {
        Item::Sound(record) => records.push(record)?,
        Item::Bad(_) | Item::Skipped => {}
    }
    Ok(())
}

/// Adds a draft, if there is one.
fn push_draft(drafts: &mut Vec<Draft>, draft: Option<Draft>) -> Result<(), AllocError>
    ensures { OnOk result (drafts.new.items ≡ drafts.old.items ++ with_draft draft []) }
{
    if let Some(draft) = draft {
        drafts.push(draft)?;
    }
    Ok(())
}

/// The runs of logs, as they were judged.
pub(crate) fn current_half<'t, 'a>(
    alloc: Global,
    judged: Judged<'t, 'a>,
) -> Result<Half<'t, 'a>, AllocError>
    ensures { IfOk result (λ half. (file : File) → IsJudged file false judged.entry
        → IsFound file (placed_in judged.entry) half) }
{
    let Judged { runs, outcomes } = judged;
    let RecordsAndDrafts { records, drafts } = take_found(alloc, outcomes)?;
    Ok(Half {
        runs,
        records,
        drafts,
    })
}

/// The runs of logs with what changes for their results.
pub(crate) fn change_half<'t, 'a>(
    alloc: Global,
    half: Half<'t, 'a>,
    changes: Changes,
) -> Result<Half<'t, 'a>, AllocError>
    ensures { IfOk result (λ changed. (file : File) (runs : List Placed)
        → IsFound file runs half.entry
        → AreChanges file (records_of runs) (all_admitted file (records_of runs))
        (flat_map results_of (run_values runs)) changes
        → IsCurrent file runs changed) }
{
    let Half {
        runs,
        records,
        drafts,
    } = half;
    let Changes {
        admitted,
        drafts: again,
    } = changes;
    let records = change_records(alloc, records, admitted)?;
    let drafts = change_drafts(alloc, drafts, again)?;
    Ok(Half {
        runs,
        records,
        drafts,
    })
}

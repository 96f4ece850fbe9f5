//! Judging one result.
ghost use Rattle.std.specs.Prelude.{◌≡◌, ◌<◌, true, false, length, codes, IfOk};
ghost use Rattle.serde_json.specs.Find.{get};
ghost use Rattle.serde_json.specs.View.{view};
ghost use Rattle.serde_json.specs.Written.{has_float};
ghost use Rattle.sarif_read.specs.Internal.Listed.{value_at};
ghost use Rattle.sarif_model.specs.Run.{results_of};
ghost use Rattle.sarif_runs.specs.Judging.{item_of, skips};
ghost use Rattle.sarif_runs.specs.Internal.Opened.{placed_of};
ghost use Rattle.sarif_results.specs.Internal.Outcomes.{draft_beside, outcome_of};

use json_parts::Node;
use sarif_members::is_node_absent;
use sarif_model::Source;
use sarif_results::{Draft, Outcome, draft_current};
use sarif_runs::{Item, OpenedRun};
use sarif_suppress::Suppressions;
use serde_json::Value;
use std::alloc::{AllocError, Global};

/// Whether results that are absent already are skipped: those of a baseline are.
fn skips_absent(source: Source) -> bool
    ensures { result ≡ skips source }
{
    matches!(source, Source::Baseline(_))
}

/// The item of a baseline result. No value of the result is made.
fn judge_known(alloc: Global, opened: &OpenedRun<'_, '_>, seq: u32) -> Result<Item, AllocError>
    requires in_run { seq < length (results_of (placed_of opened.now).run) }
    requires known { skips (placed_of opened.now).source ≡ true }
    ensures { IfOk result (λ item. item ≡ item_of (placed_of opened.now) seq) }
{
    if is_node_absent(opened.node(seq)) {
        return Ok(Item::Skipped);
    }
    let item = opened.item_at(alloc, seq)?;
    Ok(item)
}

/// The draft of the result of a node of a log, where it has a record. `found` has its own suppressions.
fn draft_item(
    alloc: Global,
    node: &Node<'_, '_>,
    found: Value,
    item: &Item,
    file: &Suppressions,
) -> Result<Option<Draft>, AllocError>
    requires whole { has_float (value_at node.now) ≡ false }
    requires own { get (codes "suppressions") (view found)
        ≡ get (codes "suppressions") (value_at node.now) }
    ensures { IfOk result
        (λ draft. draft ≡ draft_beside file.now false (value_at node.now) item.now) }
{
    match item {
        Item::Sound(record) => Ok(Some(draft_current(alloc, node, found, record, file)?)),
        Item::Bad(_) | Item::Skipped => Ok(None),
    }
}

/// Judges a result of a log. A value is made of its own suppressions alone.
#[tactic(auto, using(sarif_results::proofs::WholeResults::result_whole))]
fn judge_current(
    alloc: Global,
    opened: &OpenedRun<'_, '_>,
    seq: u32,
    file: &Suppressions,
) -> Result<Outcome, AllocError>
    requires in_run { seq < length (results_of (placed_of opened.now).run) }
    requires current { skips (placed_of opened.now).source ≡ false }
    ensures { IfOk result
        (λ outcome. outcome ≡ outcome_of file.now (placed_of opened.now) seq) }
{
    let item = opened.item_at(alloc, seq)?;
    let found = opened.pick_result(alloc, seq, &["suppressions"])?;
    let draft = draft_item(alloc, opened.node(seq), found, &item, file)?;
    Ok(Outcome { item, draft })
}

/// Judges the result of a run with that number.
pub(crate) fn judge_result(
    alloc: Global,
    opened: &OpenedRun<'_, '_>,
    seq: u32,
    file: &Suppressions,
) -> Result<Outcome, AllocError>
    requires in_run { seq < length (results_of (placed_of opened.now).run) }
    ensures { IfOk result
        (λ outcome. outcome ≡ outcome_of file.now (placed_of opened.now) seq) }
{
    if skips_absent(opened.source) {
        let item = judge_known(alloc, opened, seq)?;
        return Ok(Outcome { item, draft: None });
    }
    let outcome = judge_current(alloc, opened, seq, file)?;
    Ok(outcome)
}

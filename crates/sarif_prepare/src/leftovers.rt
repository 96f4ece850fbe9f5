//! The drafts of results of baselines. They are made once it is known with which of them no current result
//! is paired, as only these are written.
ghost use Rattle.std.specs.Prelude.{◌≡◌, ◌≤◌, ◌++◌, ◌∷◌, [], IfOk, OnOk, map, length};
ghost use Rattle.std.specs.List.{All};
ghost use Rattle.sarif_results.specs.Drafts.{drafts_by, unapplied};
ghost use Rattle.sarif_prepare.specs.Internal.Leftover.{found_at, leftover_draft, not_taken};
ghost use Rattle.sarif_runs.specs.Internal.Opened.{placed_of};
ghost use Rattle.sarif_runs.specs.Internal.Spots.{IsSpotOf};

use crate::leftover::Leftover;
use sarif_model::Record;
use sarif_results::{Draft, draft_absent};
use sarif_runs::{OpenedRun, Spot};
use sarif_share::{Sharing, each_of, share_jobs};
use std::alloc::{AllocError, Global};
use std::thread::Threads;

/// Adds a baseline result, unless it is matched.
fn push_unless<'w, 't, 'a>(
    left: &mut Vec<Leftover<'w, 't, 'a>>,
    is_taken: bool,
    one: Leftover<'w, 't, 'a>,
) -> Result<(), AllocError>
    ensures { OnOk result (map leftover_draft left.new.items
        ≡ map leftover_draft left.old.items
        ++ not_taken (is_taken ∷ []) (leftover_draft one.entry ∷ [])) }
{
    if !is_taken {
        left.push(one)?;
    }
    Ok(())
}

/// Returns the baseline results at these spots of `runs` that are not taken. For each spot, `records` and `taken`
/// have an element at the same position. Returns `AllocError` if memory for the list runs out.
pub(crate) fn list_leftovers<'w, 't, 'a>(
    alloc: Global,
    runs: &'w [OpenedRun<'t, 'a>],
    spots: &[Spot],
    records: &'w [Record],
    taken: &[bool],
) -> Result<Vec<Leftover<'w, 't, 'a>>, AllocError>
    requires within { All (IsSpotOf (map placed_of runs.now)) spots.now }
    requires spots { length spots.now ≡ length records.now }
    requires taken { length taken.now ≡ length records.now }
    ensures { IfOk result (λ left. map leftover_draft left.items
        ≡ not_taken taken.now (drafts_by (λ _ own. own) unapplied records.now
        (map (found_at (map placed_of runs.now)) spots.now))) }
{
    let mut left = Vec::new(alloc);
    for (number, spot) in spots.iter().enumerate() {
        let one = Leftover {
            run: &runs[spot.run as usize],
            seq: spot.seq,
            record: &records[number],
        };
        push_unless(&mut left, taken[number], one)?;
    }
    Ok(left)
}

/// The draft of an unmatched baseline result. A value is made of its own suppressions alone.
#[tactic(auto, using(sarif_results::proofs::WholeResults::result_whole))]
fn draft_leftover(alloc: Global, left: &Leftover<'_, '_, '_>) -> Result<Draft, AllocError>
    ensures { IfOk result (λ draft. draft ≡ leftover_draft left.now) }
{
    let found = left.run.pick_result(alloc, left.seq, &["suppressions"])?;
    let draft = draft_absent(alloc, left.run.node(left.seq), found, left.record)?;
    Ok(draft)
}

/// Returns the drafts of unmatched baseline results. At most `threads` threads make them, including this one.
/// Returns `AllocError` if memory for one runs out.
pub(crate) fn draft_leftovers<'l, 'w, 't, 'a, R: Threads + Sync>(
    rt: &R,
    alloc: Global,
    left: &'l [Leftover<'w, 't, 'a>],
    threads: u32,
) -> Result<Vec<Draft>, AllocError>
    requires { 1 ≤ threads }
    ensures { IfOk result (λ drafts. drafts.items ≡ map leftover_draft left.now) }
{
    let sharing = Sharing {
        rt,
        alloc,
        threads,
        least: 1,
    };
    let one = move |found|
        ensures { IfOk result (λ draft. draft ≡ leftover_draft found.now) }
    { draft_leftover(alloc, found) };
    let each = each_of(alloc, left)?;
    let drafts = share_jobs(&sharing, each, &one)?;
    Ok(drafts)
}

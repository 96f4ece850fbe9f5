//! The marks of the results of a log.
ghost use Rattle.std.specs.Prelude.{◌≤◌, ℕ, List, length};
ghost use Rattle.sarif_inputs.specs.Internal.Indexes.{AreIndexesOf};
ghost use Rattle.sarif_model.specs.Limits.{most_runs};

use json::Scratch;
use json_parts::{Index, IndexFault};
use sarif_change::Scope;
use sarif_inputs::{Opening, index_sources, open_sources};
use sarif_model::Sequence;
use sarif_options::Checks;
use sarif_outside::{ScopedChange, mark_outside, mark_outside_in};
use sarif_runs::{OpenedRun, list_spots};
use sarif_scope::{GatedChange, read_change};
use std::alloc::{AllocGlobal, Global};
use std::hash::RandomState;
use std::random::RandomSource;
use std::test::Fail;
use std::thread::Threads;

/// A diff that adds line 2 of a.c.
const DIFF: &str =
    "diff --git a/a.c b/a.c\n--- a/a.c\n+++ b/a.c\n@@ -1,3 +1,4 @@\n x\n+y\n z\n z\n";

/// What is marked.
#[derive(Clone, Copy)]
pub struct Marking<'m> {
    /// The text of the log.
    pub log: &'m str,
    /// Which of its results are requested.
    pub asked: &'m [bool],
    /// The scope, if it isn't that of the change.
    pub scope: Option<Scope>,
}

/// The change of the diff.
fn read_diff(alloc: Global, seed: RandomState) -> Result<GatedChange, Fail> {
    let roots = Sequence::new(alloc);
    match read_change(alloc, seed, DIFF.as_bytes(), Scope::Lines, roots) {
        Ok(change) => Ok(change),
        Err(_) => Err(Fail::new("not read")),
    }
}

/// The marks of the results of these runs.
fn mark_opened<R: Threads + Sync>(
    rt: &R,
    alloc: Global,
    change: &GatedChange,
    marking: &Marking<'_>,
    runs: &[OpenedRun<'_, '_>],
) -> Result<Vec<bool>, Fail>
    requires { length runs.now ≤ most_runs }
{
    let asked = marking.asked;
    let spots = list_spots(alloc, runs)?;
    if spots.len() != asked.len() {
        return Err(Fail::new("the log has other results"));
    }
    let marks = match marking.scope {
        None => mark_outside(rt, alloc, change, runs, asked, 2)?,
        Some(scope) => mark_outside_in(rt, alloc, &ScopedChange { change, scope }, runs, asked, 2)?,
    };
    Ok(marks)
}

/// The marks of the results of the log with this index.
fn mark_indexed<R: Threads + Sync>(
    rt: &R,
    alloc: Global,
    seed: RandomState,
    marking: &Marking<'_>,
    indexes: &[Result<Index<'_>, IndexFault>],
) -> Result<Vec<bool>, Fail>
    requires { (logs : List (List ℕ)) × (baselines : List (List ℕ))
        × AreIndexesOf logs baselines indexes.now 1 }
{
    let change = read_diff(alloc, seed)?;
    let checks = Checks::new(alloc);
    let opening = Opening {
        checks: &checks,
        seed,
    };
    match open_sources(rt, alloc, opening, indexes, 1, 1) {
        Ok(runs) => mark_opened(rt, alloc, &change, marking, &runs.current),
        Err(_) => Err(Fail::new("not opened")),
    }
}

/// Returns for each result of the log whether it is requested, and outside of the change of the diff.
pub fn read_marks<R: Threads + Sync + AllocGlobal + RandomSource>(
    rt: &R,
    marking: &Marking<'_>,
) -> Result<Vec<bool>, Fail> {
    let alloc = rt.alloc();
    let seed = RandomState::new(rt)?;
    let logs = vec![in alloc; marking.log.as_bytes().to_vec(alloc)?]?;
    let mut scratches = vec![in alloc; Scratch::new(alloc)]?;
    let indexes = index_sources(rt, alloc, &logs, &[], &mut scratches, 1)?;
    mark_indexed(rt, alloc, seed, marking, &indexes)
}

//! Taking marked results out of judged runs.
ghost use Rattle.std.specs.Prelude.{◌≡◌, Bool, IfOk, length};
ghost use Rattle.sarif_entries.specs.File.{File};
ghost use Rattle.sarif_model.specs.Run.{results_total};
ghost use Rattle.sarif_results.specs.Internal.Judged.{placed_in, IsJudged};
ghost use Rattle.sarif_runs.specs.Judging.{run_values};
ghost use Rattle.sarif_once.specs.Internal.Parted.{IsParted};

use crate::thinning::{Split, split_outcomes, thin_runs};
use sarif_results::{Judged, Outcome};
use std::alloc::{AllocError, Global};

/// Judged runs without some of their results, and what was judged of these.
#[derive(Drop)]
pub struct Parted<'t, 'a> {
    /// The runs without the marked results, and the outcomes of the others.
    pub rest: Judged<'t, 'a>,
    /// The outcomes of the marked results, in the order of runs and results.
    pub marked: Vec<Outcome>,
}

/// Takes the marked results out of runs without errors; the others stay judged as they are. Returns `AllocError` if
/// memory runs out.
pub fn part_runs<'t, 'a>(
    alloc: Global,
    judged: Judged<'t, 'a>,
    marks: &[bool],
) -> Result<Parted<'t, 'a>, AllocError>
    requires judged { (file : File) × (baseline : Bool) × IsJudged file baseline judged }
    requires marks { length marks.now ≡ results_total (run_values (placed_in judged)) }
    ensures { IfOk result (λ parted. (file : File) (baseline : Bool)
        → IsJudged file baseline judged.entry
        → IsParted file baseline marks.now (placed_in judged.entry) parted) }
{
    let Judged { runs, outcomes } = judged;
    let runs = thin_runs(alloc, runs, marks)?;
    let Split { rest, marked } = split_outcomes(alloc, outcomes, marks)?;
    let rest = Judged {
        runs,
        outcomes: rest,
    };
    Ok(Parted { rest, marked })
}

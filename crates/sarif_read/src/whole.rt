//! Logs, runs and values as whole values. Only tests and callers outside this program use these calls: the merge
//! reads a log and its runs by their index.
ghost use Rattle.std.specs.Prelude.{◌≡◌, ◌≤◌, Ok, Err, map, length, IfOk};
ghost use Rattle.serde_json.specs.View.{view};
ghost use Rattle.sarif_model.specs.Limits.{most_results, most_runs};
ghost use Rattle.sarif_model.specs.Run.{results_total};
ghost use Rattle.sarif_model.specs.Internal.Refusal.{IfFault};
ghost use Rattle.sarif_read.specs.Internal.Indexed.{run_of};
ghost use Rattle.sarif_read.specs.Reading as said;

mod log;
mod run;
mod stripping;

use crate::indexed_run::IndexedRun;
use crate::indexing::index_log;
use crate::read_fault::{ReadFault, refused_text};
use json::Scratch;
use json_parts::{index_text, without_mark};
pub use log::Log;
pub use run::RawRun;
use sarif_model::Refusal;
use std::alloc::{AllocError, Global};
pub use stripping::{strip, strip_in_place};

/// The runs with all their results.
fn fill_each(alloc: Global, runs: Vec<IndexedRun<'_, '_>>) -> Result<Vec<RawRun>, AllocError>
    ensures { IfOk result (λ filled. map view filled.items ≡ map run_of runs.entry.items) }
{
    let mut filled = Vec::with_capacity(alloc, runs.len())?;
    for run in runs {
        filled.push(run.into_raw(alloc)?)?;
    }
    Ok(filled)
}

/// Reads a log (SARIF 2.1.0, "sarifLog object"): the JSON after one leading byte order mark,
/// stripped, with the form of the log and of its runs. With `allow_external` a run may name external property files,
/// if none of them holds artifacts, tool components, invocations or results.
///
/// Returns the first error of the bytes: `NotJson`, `NotLog`, `WrongVersion` or `TooMany` without
/// a run, or `BadRun`, `ExternalProperties` or `TooMany` with the number of the run from 0. Returns
/// `OutOfMemory` if memory runs out.
#[tactic(auto, using(crate::proofs::LogText::read_steps), unfolding(crate::specs::Reading::log_of))]
pub fn read_log(
    alloc: Global,
    bytes: &[u8],
    allow_external: bool,
) -> Result<Log, Refusal<ReadFault>>
    ensures ok { IfOk result (λ log. said.log_of allow_external bytes.now ≡ Ok (map view log)) }
    ensures few { IfOk result (λ log. results_total (map view log) ≤ most_results) }
    ensures few_runs { IfOk result (λ log. length log ≤ most_runs) }
    ensures err { IfFault result (λ e. said.log_of allow_external bytes.now ≡ Err e) }
{
    let mut scratch = Scratch::new(alloc);
    let index = index_text(alloc, without_mark(bytes), &mut scratch).map_err(refused_text)?;
    let runs = index_log(alloc, &index, allow_external)?;
    Ok(Log::new(fill_each(alloc, runs)?))
}

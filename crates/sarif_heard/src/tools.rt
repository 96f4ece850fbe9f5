//! What runs say about their tools, and which tools were heard in them.
ghost use Rattle.std.specs.Prelude.{◌≡◌, map, IfOk};
ghost use Rattle.sarif_runs.specs.Judging.{run_values};
ghost use Rattle.sarif_runs.specs.Internal.Opened.{placed_of};
ghost use Rattle.sarif_heard.specs.Heard.{tool_run};

use sarif_accept::{Heard, ToolRun};
use sarif_runs::OpenedRun;
use std::alloc::{AllocError, Global};
use std::hash::RandomState;

/// What each of these runs says about its tool.
fn tool_runs(alloc: Global, runs: &[OpenedRun<'_, '_>]) -> Result<Vec<ToolRun>, AllocError>
    ensures { IfOk result
        (λ made. made.items ≡ map tool_run (run_values (map placed_of runs.now))) }
{
    let mut made = Vec::with_capacity(alloc, runs.len())?;
    for run in runs {
        let tool = run.tool().clone()?;
        let failed = run.has_failed();
        made.push(ToolRun { tool, failed })?;
    }
    Ok(made)
}

/// Returns which tools were heard in these input runs. Tables of their names hash with `seed`, on which no result
/// depends. Returns `AllocError` if memory runs out.
pub fn heard_in(
    alloc: Global,
    seed: RandomState,
    runs: &[OpenedRun<'_, '_>],
) -> Result<Heard, AllocError>
    ensures { IfOk result (λ heard. heard ≡ map tool_run (run_values (map placed_of runs.now))) }
{
    let runs = tool_runs(alloc, runs)?;
    Heard::new(alloc, seed, runs)
}

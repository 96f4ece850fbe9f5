//! Results of runs, by their numbers.
ghost use Rattle.std.specs.Prelude.{◌<◌, length};
ghost use Rattle.sarif_model.specs.Run.{results_of};
ghost use Rattle.sarif_runs.specs.Internal.Opened.{placed_of};

use sarif_runs::OpenedRun;

/// A result of a run.
#[derive(Clone, Copy)]
pub(crate) struct ListedResult<'w, 't: 'w, 'a: 't> {
    pub(crate) run: &'w OpenedRun<'t, 'a>,
    /// Its number in its run.
    pub(crate) seq: u32,
    ghost in_run: { seq < length (results_of (placed_of run.now).run) },
}

//! A result of a baseline that is written.
ghost use Rattle.std.specs.Prelude.{◌<◌, length};
ghost use Rattle.sarif_model.specs.Run.{results_of};
ghost use Rattle.sarif_runs.specs.Internal.Opened.{placed_of};

use sarif_model::Record;
use sarif_runs::OpenedRun;

/// A result of a baseline that no current result is paired with (SARIF 2.1.0, "baselineState property").
#[derive(Clone, Copy)]
pub(crate) struct Leftover<'w, 't: 'w, 'a: 't> {
    pub(crate) run: &'w OpenedRun<'t, 'a>,
    /// Its number in its run.
    pub(crate) seq: u32,
    pub(crate) record: &'w Record,
    ghost in_run: { seq < length (results_of (placed_of run.now).run) },
}

//! Reported results, and the runs that they are in.
ghost use Rattle.std.specs.Prelude.{◌≡◌, ◌<◌, length};
ghost use Rattle.std.specs.Coded.{codes};
ghost use Rattle.serde_json.specs.Data.{Data};
ghost use Rattle.serde_json.specs.View.{view};
ghost use Rattle.sarif_model.specs.Run.{results_of};
ghost use Rattle.sarif_model.specs.declared.kinds.Level.{Level as AnyLevel};
ghost use Rattle.sarif_model.specs.declared.kinds.State.{State as AnyState};
ghost use Rattle.sarif_runs.specs.Internal.Opened.{placed_of};
ghost use Rattle.sarif_findings.specs.declared.reporting.Reporting.{Reporting as AnyReporting};
ghost use Rattle.sarif_findings.specs.Reported.{finding_of};

use sarif_findings::NamedRun;
use sarif_model::{Level, State};
use sarif_runs::OpenedRun;

/// A run whose results may be reported, with the names that are looked up for each of them.
#[derive(Drop)]
pub(crate) struct ReportedRun<'w, 't: 'w, 'a: 't> {
    pub(crate) opened: &'w OpenedRun<'t, 'a>,
    pub(crate) named: NamedRun<'w>,
    ghost named_is: { (reporting : AnyReporting) (found : Data)
        (level : AnyLevel) (state : AnyState)
        → finding_of reporting (view named) found level state
        ≡ finding_of reporting (placed_of opened.now).run found level state },
}

/// A reported result.
#[derive(Clone, Copy)]
pub(crate) struct ReportedResult<'l, 'w: 'l, 't: 'w, 'a: 't> {
    pub(crate) run: &'l ReportedRun<'w, 't, 'a>,
    /// Its number in its run.
    pub(crate) seq: u32,
    /// Its effective level.
    pub(crate) level: Level,
    /// Its baseline state.
    pub(crate) state: State,
    ghost in_run: { seq < length (results_of (placed_of run.now.opened.now).run) },
}

//! Results that are requested, and the runs that they are in.
ghost use Rattle.std.specs.Prelude.{◌≡◌, ◌<◌, length};
ghost use Rattle.sarif_model.specs.Run.{results_of};
ghost use Rattle.sarif_runs.specs.Internal.Opened.{placed_of};
ghost use Rattle.sarif_scope.specs.Inside.{artifacts_in};

use crate::scoped::ScopedChange;
use sarif_change::KnownArtifacts;
use sarif_runs::OpenedRun;

/// A run, with what a change says about its artifacts.
#[derive(Drop)]
pub(crate) struct LookedRun<'w, 't: 'w, 'a: 't> {
    pub(crate) opened: &'w OpenedRun<'t, 'a>,
    pub(crate) change: ScopedChange<'w>,
    pub(crate) known: KnownArtifacts<'w>,
    ghost changed_are: { known.changed.now ≡ change.change.now.changed },
    ghost roots_are: { known.roots.now ≡ change.change.now.roots },
    ghost scope_is: { known.scope ≡ change.scope },
    ghost artifacts_are: { known.artifacts ≡ artifacts_in (placed_of opened.now).run },
}

/// A result that is requested.
#[derive(Clone, Copy)]
pub(crate) struct AskedResult<'l, 'w: 'l, 't: 'w, 'a: 't> {
    pub(crate) run: &'l LookedRun<'w, 't, 'a>,
    /// Its number in its run.
    pub(crate) seq: u32,
    ghost in_run: { seq < length (results_of (placed_of run.now.opened.now).run) },
}

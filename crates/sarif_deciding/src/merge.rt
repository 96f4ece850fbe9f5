//! The matched results of a merge.
use sarif_model::{Record, State};
use sarif_results::Draft;
use sarif_runs::{OpenedRun, Spot};
use sarif_scope::GatedChange;
use sarif_suppress::Suppressions;
use std::hash::RandomState;

/// The current results of a merge: those of the input runs, in order.
#[derive(Clone, Copy)]
pub struct CurrentResults<'m, 't: 'm, 'a: 't> {
    /// The input runs.
    pub runs: &'m [OpenedRun<'t, 'a>],
    /// The record of each of their results.
    pub records: &'m [Record],
    /// The draft of each of their results.
    pub drafts: &'m [Draft],
    /// The state of each of their results. Each has one.
    pub states: &'m [Option<State>],
}

/// The results of baselines, without those that are already absent.
#[derive(Clone, Copy)]
pub struct LeftResults<'m, 't: 'm, 'a: 't> {
    /// The runs of the baselines.
    pub runs: &'m [OpenedRun<'t, 'a>],
    /// The place of each result, in order.
    pub spots: &'m [Spot],
    /// The record of each result.
    pub records: &'m [Record],
    /// Whether each result is the match of a current result.
    pub taken: &'m [bool],
    /// The drafts of those that aren't.
    pub left: &'m [Draft],
}

/// The results of a merge once they are matched, with what conditions require.
#[derive(Clone, Copy)]
pub struct MatchedMerge<'m, 't: 'm, 'a: 't> {
    /// The results of the input runs.
    pub current: CurrentResults<'m, 't, 'a>,
    /// The results of baselines.
    pub before: LeftResults<'m, 't, 'a>,
    /// The suppression file; without one it has no entries.
    pub file: &'m Suppressions,
    /// The change that the gate checks, if there is one.
    pub change: Option<&'m GatedChange>,
}

/// How a policy is decided. The result depends on neither.
#[derive(Clone, Copy)]
pub struct Deciding {
    /// By which tables hash.
    pub seed: RandomState,
    /// The most threads that there may be, this one among them.
    pub threads: u32,
}

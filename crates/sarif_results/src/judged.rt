//! What is assembled.
use crate::outcome::Outcome;
use sarif_runs::OpenedRun;

/// Runs of logs, or of baselines, and what was judged of their results.
#[derive(Drop)]
pub struct Judged<'t, 'a> {
    /// The runs, in the order of the input.
    pub runs: Vec<OpenedRun<'t, 'a>>,
    /// The outcome of each result, in the order of runs and results.
    pub outcomes: Vec<Outcome>,
}

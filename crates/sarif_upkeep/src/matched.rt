//! A merge whose results are matched.
use sarif_evidence::MatchingVersion;
use sarif_known::Standing;
use sarif_model::{Record, State};
use sarif_options::Policy;
use sarif_results::Draft;
use sarif_runs::OpenedRun;
use sarif_suppress::Suppressions;

/// The results of the input runs.
#[derive(Clone, Copy)]
pub struct Current<'m, 't: 'm, 'a: 't> {
    /// The input runs, in order.
    pub runs: &'m [OpenedRun<'t, 'a>],
    /// The records of all their results, in the order of runs and results.
    pub records: &'m [Record],
    /// Their drafts.
    pub drafts: &'m [Draft],
    /// Their baseline states.
    pub states: &'m [State],
    /// The same states, whether they are doubtful, and with a policy whether each result is or would be a hit.
    pub standings: &'m [Standing],
}

/// The results of the baselines that are not already absent.
#[derive(Clone, Copy)]
pub struct Before<'m, 't: 'm, 'a: 't> {
    /// The runs of the baselines, in order.
    pub runs: &'m [OpenedRun<'t, 'a>],
    /// How many of these results each run has.
    pub counts: &'m [u32],
    /// Their records, in the order of runs and results.
    pub records: &'m [Record],
    /// Whether each is the match of a current result.
    pub taken: &'m [bool],
}

/// A merge whose results are matched.
#[derive(Clone, Copy)]
pub struct Matched<'m, 't: 'm, 'a: 't> {
    /// The suppression file.
    pub file: &'m Suppressions,
    /// Its bytes, if there is one.
    pub bytes: Option<&'m [u8]>,
    /// What the gate fails on.
    pub policy: Policy,
    /// The version by which the results were matched.
    pub matching: MatchingVersion,
    /// Whether copies aren't counted; then all results are findings.
    pub once: bool,
    /// Whether the known log has regions and snippets.
    pub regions: bool,
    /// Which of the current results are hidden from the gate: with a change those outside, with a policy all that aren't hits.
    pub hidden: Option<&'m [bool]>,
    /// With a policy, how many results of the baselines that no current result matches are hits.
    pub absent: Option<u32>,
    /// Which of the current results are chosen hits, if not all hits are.
    pub chosen: Option<&'m [bool]>,
    /// The results of the input runs.
    pub current: Current<'m, 't, 'a>,
    /// The results of the baselines.
    pub before: Before<'m, 't, 'a>,
}

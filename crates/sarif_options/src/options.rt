//! How a merge is done.
ghost use Rattle.std.specs.Prelude.{◌≤◌};
ghost use Rattle.sarif_model.specs.Limits.{most_workers};

use crate::checks::Checks;
use crate::policy::Policy;
use std::hash::RandomState;

/// How a merge is done.
#[derive(Debug, Drop)]
pub struct Options {
    /// What the gate fails on.
    pub policy: Policy,
    /// What is required of runs beyond the form of a log.
    pub checks: Checks,
    /// Today's date as YYYYMMDD, which decides whether suppressions have expired. Without it an entry with an
    /// expiry date is rejected.
    pub today: Option<u32>,
    /// The number of worker threads, 1 to `MOST_WORKERS`. They work in addition to the calling thread. For findings,
    /// counts and reports the calling thread is one of them.
    pub workers: u32,
    /// The seed of hash tables whose keys come from logs. No result depends on it. If the seed is secret, no log
    /// can make the tables slow.
    pub seed: RandomState,
    pub ghost some_workers: { 1 ≤ workers },
    pub ghost few_workers: { workers ≤ most_workers },
}

//! Runs with those of their results that become known.
ghost use Rattle.std.specs.Prelude.{◌≤◌, length};
ghost use Rattle.sarif_model.specs.Limits.{most_results};

use sarif_model::{Record, Text};

/// A run of a log or of a baseline, with those of its results that become known.
#[derive(Drop)]
pub struct KnownRun<'a> {
    /// The driver's name.
    pub tool: &'a Text,
    /// The records of these results, in order.
    pub records: Vec<&'a Record>,
    pub ghost few: { length records.items ≤ most_results },
}

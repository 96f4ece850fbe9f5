//! How a run is read.
ghost use Rattle.std.specs.Prelude.{◌≡◌};
ghost use Rattle.sarif_runs.specs.Ignoring.{is_among};

use sarif_model::Text;
use std::marker::Model;

/// Names of fingerprints that no record has. Contracts see the list of these names.
#[derive(Drop)]
pub struct IgnoredNames<'o> {
    names: &'o [Text],
}

impl<'o> Model for IgnoredNames<'o> {
    ghost use Rattle.std.specs.Prelude.{ℕ, List};

    ghost Value = { List (List ℕ) };

    ghost view = { λ ignored. ignored.names.now };
}

impl<'o> IgnoredNames<'o> {
    /// These names.
    pub fn new(names: &'o [Text]) -> IgnoredNames<'o>
        ensures { result ≡ names.now }
    {
        IgnoredNames { names }
    }

    /// The names in order.
    pub fn as_slice(&self) -> &[Text]
        ensures { result.now ≡ self.now }
    {
        self.names
    }
}

/// What the record of a result has.
#[derive(Drop)]
pub struct RecordOptions<'o> {
    /// Whether it has the region of the result and its snippet (SARIF 2.1.0, "region property").
    pub regions: bool,
    /// The names of fingerprints that it doesn't have.
    pub ignored: IgnoredNames<'o>,
}

/// What is required of a run, and what the records of its results have.
#[derive(Drop)]
pub struct RunOptions<'o> {
    /// Whether its analysis must have been successful (SARIF 2.1.0, "executionSuccessful property").
    pub must_succeed: bool,
    /// What the records of its results have.
    pub records: RecordOptions<'o>,
}

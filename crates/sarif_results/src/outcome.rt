//! Judging one result.
ghost use Rattle.std.specs.Prelude.{◌<◌};

use crate::draft::Draft;
use sarif_runs::Item;

/// What a worker made of a result.
#[derive(Debug, Drop)]
pub struct Outcome {
    /// Its record, its first error, or that it is skipped.
    pub item: Item,
    /// Its draft, where it is one of a log and has a record.
    pub draft: Option<Draft>,
}

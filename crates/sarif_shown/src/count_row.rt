//! The numbers of a baseline state in a table of counts.
ghost use Rattle.std.specs.Prelude.{◌≡◌};
ghost use Rattle.sarif_counts.specs.Counts.{count_at};
ghost use Rattle.sarif_counts.specs.Summary.{suppressed_of};
ghost use Rattle.sarif_shown.specs.CountRow.{numbers_of};

use sarif_counts::Counts;
use sarif_model::{Level, State};

/// All suppressed results of a state.
fn count_suppressed(counts: &Counts, state: State) -> u64
    ensures { result ≡ suppressed_of (count_at counts.now state) }
{
    u64::from(counts.get(state, Level::Error, true))
        + u64::from(counts.get(state, Level::Warning, true))
        + u64::from(counts.get(state, Level::Note, true))
        + u64::from(counts.get(state, Level::NoLevel, true))
}

/// The numbers of one state's row.
#[derive(Drop)]
pub struct CountRow {
    /// The active results of the level `error`.
    pub error: u32,
    /// The active results of the level `warning`.
    pub warning: u32,
    /// The active results of the level `note`.
    pub note: u32,
    /// The active results of the level `none`.
    pub none: u32,
    /// The suppressed results of all levels.
    pub suppressed: u64,
}

/// Returns the numbers of one state's row.
pub fn row_numbers(counts: &Counts, state: State) -> CountRow
    ensures { result ≡ numbers_of (count_at counts.now state) }
{
    CountRow {
        error: counts.get(state, Level::Error, false),
        warning: counts.get(state, Level::Warning, false),
        note: counts.get(state, Level::Note, false),
        none: counts.get(state, Level::NoLevel, false),
        suppressed: count_suppressed(counts, state),
    }
}

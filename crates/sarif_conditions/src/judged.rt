//! The results of a merge as conditions see them.
use sarif_model::{Level, Record, State};
use sarif_policy::Rating;

/// A result of a merge as conditions see it.
#[derive(Clone, Copy)]
pub struct JudgedResult<'a> {
    /// Its record.
    pub record: &'a Record,
    /// Its state.
    pub state: State,
    /// Its level.
    pub level: Level,
    /// Whether it is suppressed.
    pub suppressed: bool,
    /// Its security severity.
    pub rating: &'a Rating,
    /// Whether it is inside the change by the changed lines.
    pub in_lines: bool,
    /// Whether it is inside the change by the changed files.
    pub in_files: bool,
    /// Whether its tool was heard, and it meets the conditions of no suppression entry. It matters only for absent results.
    pub is_gone: bool,
}

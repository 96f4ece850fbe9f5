//! A reported result.
use crate::told_result::ToldResult;
use serde_json::Value;

/// A reported result, in its run.
#[derive(Clone, Copy)]
pub(crate) struct Subject<'r> {
    pub(crate) run: &'r Value,
    pub(crate) told: &'r ToldResult<'r>,
    /// The descriptor of the result's rule.
    pub(crate) descriptor: Option<&'r Value>,
}

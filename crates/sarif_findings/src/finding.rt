//! What a report says about a result.
use crate::code::Code;
use sarif_counts::Impact;
use sarif_model::{Level, State, Text};

/// What a report says about a result of the merged log. Strings are shown strings (see `shown`).
#[derive(Debug, Drop)]
pub struct Finding {
    /// The name of the driver.
    pub tool: Text,
    /// The rule id, or the empty string.
    pub rule: Text,
    /// The effective level, as the merged log has it.
    pub level: Level,
    /// The baseline state, as the merged log has it.
    pub state: State,
    /// The message with its placeholders filled in, or `(no message)` where that is empty.
    pub message: Text,
    /// The URI of its place, read as a path, without the root; `None` if there is no URI or the path is empty.
    pub path: Option<Text>,
    /// Whether the path is shown unchanged: no character of it was replaced, and none was left out.
    pub exact: bool,
    /// `region.startLine` of its first location, from 1; `None` if it is missing or there is no path.
    pub line: Option<u32>,
    /// `region.startColumn` of its first location, from 1, in the unit of the log; `None` if it is missing or
    /// there is no line.
    pub column: Option<u32>,
    /// The address of a page on the rule: its `helpUri`, if reports may link to it.
    pub help: Option<Text>,
    /// The name of the rule, if it has one that isn't its id: at most 100 characters, followed by `…` if there were more.
    pub rule_name: Option<Text>,
    /// Some lines of its code, if a snippet of its first location has any.
    pub code: Option<Code>,
    /// What it does to the gate: it is a hit if its level is at least that of the policy.
    pub impact: Impact,
}

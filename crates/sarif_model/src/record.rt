//! What matching and suppressing need of a result.
use crate::kinds::{Kind, Level, Status};
use crate::message::Message;
use crate::place::Place;
use crate::region::Region;
use crate::sequence::{Pairs, Sequence};
use crate::text::Text;

/// A result with what its run says about it (SARIF 2.1.0, "result object").
#[derive(Debug, Drop)]
pub struct Record {
    /// The driver's `name`.
    pub tool: Text,
    /// `ruleId`, otherwise `rule.id`, otherwise the descriptor's `id`, otherwise the empty string.
    pub rule_id: Text,
    /// `kind`; `fail` if it is missing.
    pub kind: Kind,
    /// The effective level.
    pub level: Level,
    /// `message`.
    pub message: Message,
    /// The artifact of the first location.
    pub place: Place,
    /// `correlationGuid`, as a number.
    pub guid: Option<u128>,
    /// `fingerprints`.
    pub full: Pairs,
    /// `partialFingerprints`.
    pub partial: Pairs,
    /// The statuses of the result's own suppressions, in order.
    pub held: Sequence<Status>,
    /// The region of the first location, if it was read.
    pub region: Option<Region>,
    /// The text of the snippet of that region, if it was read.
    pub snippet: Option<Text>,
    /// The numbers of the entries of the suppression file with `max` that admit the result: it meets them, and it is
    /// among the first results that do. Empty if there is none, and until the results are in order.
    pub admitted: Sequence<u32>,
}

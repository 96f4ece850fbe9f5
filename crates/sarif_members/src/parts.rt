//! A result's own members, without what its run says about it.
use sarif_model::{Kind, Level, Message, Pairs, Region, Sequence, Status, Text};

/// The members of a result that the merge reads (SARIF 2.1.0, "result object"). An index that is
/// absent or -1 is `None`.
#[derive(Debug, Drop)]
pub struct Parts {
    /// `kind`; `fail` if it is missing.
    pub kind: Kind,
    /// `level`, as it is written.
    pub level: Option<Level>,
    /// `ruleId`, otherwise `rule.id`.
    pub rule_id: Option<Text>,
    /// `rule.index`, otherwise `ruleIndex`.
    pub rule_index: Option<u32>,
    /// `rule.toolComponent.index`: the extension.
    pub component: Option<u32>,
    /// `provenance.invocationIndex`.
    pub invocation: Option<u32>,
    /// `message`.
    pub message: Message,
    /// `uri` of the first location's artifact.
    pub uri: Option<Text>,
    /// `uriBaseId` next to it.
    pub base: Option<Text>,
    /// `index` next to it.
    pub artifact: Option<u32>,
    /// `correlationGuid`, as a number.
    pub guid: Option<u128>,
    /// `fingerprints`.
    pub full: Pairs,
    /// `partialFingerprints`.
    pub partial: Pairs,
    /// The statuses of `suppressions`, in order.
    pub held: Sequence<Status>,
    /// The region of the first location, if it was read.
    pub region: Option<Region>,
    /// The text of the snippet of that region, if it was read.
    pub snippet: Option<Text>,
}

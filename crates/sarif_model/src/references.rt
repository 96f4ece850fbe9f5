//! How a result refers to its rule and to the text of its message, as reports read it.

/// How a result refers to its rule (SARIF 2.1.0, "result object", "reportingDescriptorReference object"). A member of
/// the wrong type is treated as missing.
#[derive(Clone, Copy)]
pub struct RuleReference<'a> {
    /// `ruleId`, otherwise `rule.id`.
    pub id: Option<&'a str>,
    /// `rule.index`, otherwise `ruleIndex`, into the rules of its tool component.
    pub index: Option<u64>,
    /// `rule.toolComponent.index`, into the extensions of the tool.
    pub extension: Option<u64>,
}

/// How a result refers to the text of its message (SARIF 2.1.0, "message object"). A member of the wrong type is
/// treated as missing.
#[derive(Clone, Copy)]
pub struct MessageReference<'a> {
    /// `message.text`.
    pub text: Option<&'a str>,
    /// `message.id`, the name of a message string.
    pub id: Option<&'a str>,
}

//! The message of a result, as results are compared by it.
use crate::sequence::Sequence;
use crate::text::Text;

/// The members of a message by which results are compared (SARIF 2.1.0, "message object").
#[derive(Debug, Drop, PartialEq, Eq, Hash)]
pub struct Message {
    /// `text`.
    pub text: Option<Text>,
    /// `id`.
    pub id: Option<Text>,
    /// `arguments`; empty if it is missing.
    pub args: Sequence<Text>,
}

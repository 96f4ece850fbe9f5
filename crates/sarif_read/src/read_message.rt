//! What reports read from the message of a result.
use sarif_model::MessageReference;
use serde_json::Value;

/// What reports read from the message of a result (SARIF 2.1.0, "message object").
#[derive(Drop)]
pub struct ReadMessage<'a> {
    /// How the result refers to the text of its message.
    pub reference: MessageReference<'a>,
    /// The values of `message.arguments`; none if there is no array.
    pub arguments: Vec<Value>,
}

//! What is expected of the values of a policy: the table of sentences, and which values are as expected.
use sarif_model::{Level, State};
use sarif_policy::{LONGEST_NAME, MOST_CONDITIONS, MOST_FILTERS};
use serde_json::Value;
use std::fmt;

/// What is expected of a value of a policy.
#[derive(Clone, Copy, Debug, PartialEq, Eq)]
pub(crate) enum PolicyWanted {
    File,
    FileMembers,
    Conditions,
    Version,
    SomeConditions,
    FewConditions,
    Condition,
    ConditionMembers,
    Name,
    OtherName,
    Level,
    States,
    /// Of `max`.
    Limit,
    Flag,
    Filters,
    Decimal,
    Unrated,
    Scope,
    /// Of `ratchet`, `diff` and the state absent.
    Apart,
    Change,
    Filter,
    FilterMembers,
}

impl PolicyWanted {
    /// Returns the sentence that says what is expected; empty for the sentences that contain a limit, which `fmt`
    /// writes.
    fn sentence(self) -> &'static str {
        match self {
            PolicyWanted::File => "an object with an array conditions",
            PolicyWanted::FileMembers => "only the members version, conditions and $schema",
            PolicyWanted::Conditions => "an array",
            PolicyWanted::Version => "the integer 1, written without a fraction",
            PolicyWanted::SomeConditions => "at least one condition",
            PolicyWanted::Condition => "an object with a name",
            PolicyWanted::ConditionMembers => {
                "only the members name, level, states, max, ratchet, only, except, \
                 minSecuritySeverity, unrated and diff"
            }
            PolicyWanted::OtherName => "a name that no earlier condition has",
            PolicyWanted::Level => "error, warning, note or none",
            PolicyWanted::States => {
                "an array of one or more of new, updated, unchanged and absent, each once"
            }
            PolicyWanted::Flag => "true or false",
            PolicyWanted::Decimal => {
                "a string of digits, or of digits, a dot and digits, for example 7.0"
            }
            PolicyWanted::Unrated => "count or skip",
            PolicyWanted::Scope => "lines or files",
            PolicyWanted::Apart => "at most one of a ratchet, a diff and the state absent",
            PolicyWanted::Change => "a diff of the change, since the condition has a scope",
            PolicyWanted::Filter => "an object",
            PolicyWanted::FilterMembers => {
                "only the members tool, ruleId, uri, uriPrefix, guid, fingerprints, \
                 partialFingerprints, message, messageId, messageArguments and snippet"
            }
            PolicyWanted::FewConditions
            | PolicyWanted::Name
            | PolicyWanted::Limit
            | PolicyWanted::Filters => "",
        }
    }

    /// Returns whether a string is one of the expected ones.
    fn is_wanted_text(self, text: &str) -> bool {
        match self {
            PolicyWanted::Name => is_name(text.as_bytes()),
            PolicyWanted::Level => Level::from_name(text).is_some(),
            PolicyWanted::Decimal => is_decimal(text),
            PolicyWanted::Unrated => text == "count" || text == "skip",
            PolicyWanted::Scope => text == "lines" || text == "files",
            _ => false,
        }
    }

    /// Returns whether an integer is one of the expected ones.
    fn is_wanted_number(self, number: u64) -> bool {
        match self {
            PolicyWanted::Version => number == 1,
            PolicyWanted::Limit => number <= u32::MAX as u64,
            _ => false,
        }
    }

    /// Returns whether an array is one of the expected ones. The elements of `conditions` and of lists of filters are
    /// not checked.
    fn is_wanted_array(self, items: &[Value]) -> bool {
        match self {
            PolicyWanted::Conditions => true,
            PolicyWanted::States => !items.is_empty() && are_states(items),
            PolicyWanted::Filters => !items.is_empty() && items.len() <= MOST_FILTERS,
            _ => false,
        }
    }

    /// Returns whether the value is as expected. If a value is wrong only because of others, for example a name that
    /// an earlier condition has, no value is expected.
    pub(crate) fn fits(self, value: &Value) -> bool {
        match value {
            Value::Null => false,
            Value::Bool(_) => self == PolicyWanted::Flag,
            Value::Number(number) => match number.as_u64() {
                Some(number) => self.is_wanted_number(number),
                None => false,
            },
            Value::String(text) => self.is_wanted_text(text.as_str()),
            Value::Array(items) => self.is_wanted_array(items.as_slice()),
            Value::Object(_) => matches!(
                self,
                PolicyWanted::File | PolicyWanted::Condition | PolicyWanted::Filter
            ),
        }
    }
}

impl fmt::Display for PolicyWanted {
    fn fmt<W: fmt::Write>(&self, f: &mut fmt::Formatter<W>) -> fmt::Result {
        match *self {
            PolicyWanted::FewConditions => write!(f, "at most {MOST_CONDITIONS} conditions"),
            PolicyWanted::Name => write!(
                f,
                "a string of 1 to {LONGEST_NAME} of the characters A-Z a-z 0-9 . _ - and space, \
                 without a space at its beginning or end"
            ),
            PolicyWanted::Limit => write!(f, "an integer from 0 to {}", u32::MAX),
            PolicyWanted::Filters => write!(f, "an array of 1 to {MOST_FILTERS} filters"),
            wanted => f.write_str(wanted.sentence()),
        }
    }
}

/// Returns whether the name of a condition may have this byte.
fn is_name_byte(byte: u8) -> bool {
    matches!(byte, b'A'..=b'Z' | b'a'..=b'z' | b'0'..=b'9' | b'.' | b'_' | b'-' | b' ')
}

/// Returns whether a string may be the name of a condition.
fn is_name(text: &[u8]) -> bool {
    !text.is_empty()
        && text.len() <= LONGEST_NAME
        && text.iter().all(|byte| is_name_byte(*byte))
        && text[0] != b' '
        && text[text.len() - 1] != b' '
}

/// Returns whether a string is one or more digits, and nothing else.
fn are_digits(text: &str) -> bool {
    !text.is_empty()
        && text
            .as_bytes()
            .iter()
            .all(|byte| matches!(*byte, b'0'..=b'9'))
}

/// Returns whether a string is one or more digits, or these, a dot and one or more digits.
fn is_decimal(text: &str) -> bool {
    match text.split_once(".") {
        Some((whole, fraction)) => are_digits(whole) && are_digits(fraction),
        None => are_digits(text),
    }
}

/// Returns the state that a value names.
fn state_of(value: &Value) -> Option<State> {
    State::from_name(value.as_str()?)
}

/// Returns whether each value names a state that no earlier one does.
fn are_states(values: &[Value]) -> bool {
    for (at, value) in values.iter().enumerate() {
        let state = state_of(value);
        if state.is_none() || values[..at].iter().any(|other| state_of(other) == state) {
            return false;
        }
    }
    true
}

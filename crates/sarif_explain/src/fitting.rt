//! Which values are as expected.
use crate::wanted::Wanted;
use sarif_model::{FIRST_DAY, Kind, LAST_DAY, Level, Status, read_guid};
use serde_json::Value;

/// Whether the number is a day yyyymmdd of the years 1000 to 9999, of a month 1 to 12 and a day 1 to 31.
fn is_day(number: u32) -> bool {
    let month = number / 100 % 100;
    let day = number % 100;
    matches!(number, FIRST_DAY..=LAST_DAY) && matches!(month, 1..=12) && matches!(day, 1..=31)
}

/// Returns whether a string is one of the expected ones.
fn is_wanted_text(wanted: Wanted, text: &str) -> bool {
    match wanted {
        Wanted::LogVersion => text == "2.1.0",
        Wanted::Level => Level::from_name(text).is_some(),
        Wanted::Kind => Kind::from_name(text).is_some(),
        Wanted::Guid => read_guid(text).is_some(),
        Wanted::SuppressionKind => text == "inSource" || text == "external",
        Wanted::Status => Status::from_name(text).is_some(),
        Wanted::Present => text != "absent",
        Wanted::Text | Wanted::TextOrNull => true,
        _ => false,
    }
}

/// Returns whether an integer is one of the expected ones.
fn is_wanted_number(wanted: Wanted, number: i64) -> bool {
    match wanted {
        Wanted::Index => -1 <= number && number <= u32::MAX as i64,
        Wanted::FileVersion => matches!(number, 1 | 2 | 4 | 5),
        Wanted::Limit => 1 <= number && number <= u32::MAX as i64,
        Wanted::Day => match u32::try_from(number) {
            Ok(day) => is_day(day),
            Err(_) => false,
        },
        _ => false,
    }
}

/// Returns whether an `executionSuccessful` doesn't say that the analysis failed: only the value false does.
fn is_no_failure(value: &Value) -> bool {
    match value {
        Value::Bool(successful) => *successful,
        _ => true,
    }
}

impl Wanted {
    /// Returns whether an object with any members is expected.
    fn is_object(self) -> bool {
        matches!(
            self,
            Wanted::Log
                | Wanted::Run
                | Wanted::Object
                | Wanted::TextMap
                | Wanted::Entries
                | Wanted::Entry
        )
    }

    /// Returns whether the value is as expected. For arrays and maps of a log or of a suppression file only the type is
    /// checked, not the elements. If a value is wrong only because of its position, for example past a limit, no value
    /// is expected.
    pub(crate) fn fits(self, value: &Value) -> bool {
        match self {
            Wanted::Success => is_no_failure(value),
            Wanted::Policy(wanted) => wanted.fits(value),
            _ => self.fits_log(value),
        }
    }

    /// Returns whether the value of a log or of a suppression file is as expected.
    fn fits_log(self, value: &Value) -> bool {
        match value {
            Value::Null => matches!(self, Wanted::Runs | Wanted::TextOrNull),
            Value::Bool(_) => false,
            Value::Number(number) => match number.as_i64() {
                Some(number) => is_wanted_number(self, number),
                None => false,
            },
            Value::String(text) => is_wanted_text(self, text.as_str()),
            Value::Array(_) => matches!(
                self,
                Wanted::Runs | Wanted::Array | Wanted::Objects | Wanted::Texts
            ),
            Value::Object(members) => match self {
                Wanted::NoFiles => members.is_empty(),
                _ => self.is_object(),
            },
        }
    }

    /// What is expected of each element, or of each member's value.
    pub(crate) fn of_each(self) -> Option<Wanted> {
        match self {
            Wanted::Objects => Some(Wanted::Object),
            Wanted::Texts => Some(Wanted::Text),
            Wanted::TextMap => Some(Wanted::TextOrNull),
            _ => None,
        }
    }
}

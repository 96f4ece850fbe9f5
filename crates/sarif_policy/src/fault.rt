//! The errors of a policy file.
ghost use Rattle.std.specs.Prelude.{◌≡◌};
ghost use Rattle.sarif_policy.specs.Fault as said;
ghost use Rattle.sarif_model.specs.declared.refusal.Refusal.TheVariants as refusal;

use sarif_model::Refusal;
use std::fmt;
use thiserror::Error;

/// What is wrong with a policy file.
#[derive(Clone, Copy, Debug, PartialEq, Eq, Error)]
pub enum PolicyCause {
    /// The bytes are not UTF-8, not JSON, or nested too deep.
    #[error("NotJson")]
    NotJson,
    /// The file is not an object, has an unknown member, or its `conditions` are not an array.
    #[error("NotPolicy")]
    NotPolicy,
    /// The `version` is not the integer 1.
    #[error("WrongVersion")]
    WrongVersion,
    /// There is no condition, so the gate would always pass.
    #[error("NoCondition")]
    NoCondition,
    /// There are more than `MOST_CONDITIONS` conditions.
    #[error("TooMany")]
    TooMany,
    /// A condition is not an object, has an unknown member or one of a wrong type or value, or has members that exclude
    /// each other.
    #[error("BadCondition")]
    BadCondition,
    /// A filter is not an object, or has an unknown member or one of a wrong type.
    #[error("BadFilter")]
    BadFilter,
    /// A filter names no condition of an entry.
    #[error("EmptyFilter")]
    EmptyFilter,
    /// An earlier condition has the same name.
    #[error("SameName")]
    SameName,
    /// A condition has `diff`, and there is no diff.
    #[error("NeedsDiff")]
    NeedsDiff,
}

/// The two lists of filters of a condition.
#[derive(Clone, Copy, Debug, PartialEq, Eq)]
pub enum FilterList {
    /// `only`.
    Only,
    /// `except`.
    Except,
}

impl FilterList {
    /// Returns the name of the member of a condition that has the list.
    pub fn name(self) -> &'static str
        ensures { result.now ≡ said.list_name self }
    {
        match self {
            FilterList::Only => "only",
            FilterList::Except => "except",
        }
    }
}

/// Where an error of a policy file is. Numbers are from 0.
#[derive(Clone, Copy, Debug, PartialEq, Eq)]
pub enum PolicyPlace {
    /// The whole file.
    Whole,
    /// The condition with this number.
    Condition(u32),
    /// A filter of the condition with this number: its list, and its number in it.
    Filter(u32, FilterList, u32),
}

/// The first error of a policy file.
#[derive(Clone, Copy, Debug, PartialEq, Eq)]
pub struct PolicyFault {
    /// Where it is.
    pub at: PolicyPlace,
    /// What is wrong.
    pub cause: PolicyCause,
}

impl PolicyFault {
    /// Returns an error of the whole file.
    pub(crate) fn whole(cause: PolicyCause) -> PolicyFault
        ensures { result ≡ said.whole cause }
    {
        PolicyFault {
            at: PolicyPlace::Whole,
            cause,
        }
    }

    /// Returns an error of this condition.
    pub(crate) fn in_condition(number: u32, cause: PolicyCause) -> PolicyFault
        ensures { result ≡ said.in_condition number cause }
    {
        PolicyFault {
            at: PolicyPlace::Condition(number),
            cause,
        }
    }
}

impl From<PolicyFault> for Refusal<PolicyFault> {
    ghost from_gives = { λ fault found. found ≡ refusal.Fault fault };

    fn from(fault: PolicyFault) -> Refusal<PolicyFault> {
        Refusal::Fault(fault)
    }
}

impl fmt::Display for PolicyFault {
    fn fmt<W: fmt::Write>(&self, f: &mut fmt::Formatter<W>) -> fmt::Result {
        let cause = self.cause;
        match self.at {
            PolicyPlace::Whole => write!(f, "policy: {cause}"),
            PolicyPlace::Condition(number) => write!(f, "policy, condition {number}: {cause}"),
            PolicyPlace::Filter(number, list, filter) => {
                let name = list.name();
                write!(f, "policy, condition {number}, {name} {filter}: {cause}")
            }
        }
    }
}

impl std::error::Error for PolicyFault {}

//! The versions of the suppression file.
ghost use Rattle.std.specs.Prelude.{◌≡◌};
ghost use Rattle.sarif_entries.specs.Entries as said;
ghost use Rattle.sarif_entries.specs.File.{number_of};

use crate::condition::ConditionKind;

/// A version of the suppression file.
#[derive(Clone, Copy, Debug, PartialEq, Eq)]
pub enum Version {
    /// `"version": 1`.
    First,
    /// `"version": 2`, which has `uriPrefix` and `expires` too.
    Second,
    /// `"version": 4`, which has `message`, `messageId` and `messageArguments` too.
    Fourth,
    /// `"version": 5`, which has `snippet` and `max` too.
    Fifth,
}

impl Version {
    /// Its number.
    pub fn number(self) -> u32
        ensures { result ≡ number_of self }
    {
        match self {
            Version::First => 1,
            Version::Second => 2,
            Version::Fourth => 4,
            Version::Fifth => 5,
        }
    }

    /// Returns whether this version has what `earlier` introduced.
    fn includes(self, earlier: Version) -> bool
        ensures { result ≡ said.includes self earlier }
    {
        match (self, earlier) {
            (_, Version::First) => true,
            (Version::First, Version::Second) => false,
            (_, Version::Second) => true,
            (Version::Fourth | Version::Fifth, Version::Fourth) => true,
            (_, Version::Fourth) => false,
            (Version::Fifth, Version::Fifth) => true,
            (_, Version::Fifth) => false,
        }
    }

    /// Returns whether an entry of this version may have a condition in a member of that name.
    fn has_condition(self, name: &str) -> bool
        ensures { result ≡ said.has_condition self name.now }
    {
        ConditionKind::ALL
            .iter()
            .any(|kind| name == kind.name() && self.includes(kind.since()))
    }

    /// Returns whether an entry of this version may have a member of that name.
    pub(crate) fn has_member(self, name: &str) -> bool
        ensures { result ≡ said.has_member self name.now }
    {
        self.has_condition(name)
            || name == "status"
            || name == "justification"
            || (name == "expires" && self.includes(Version::Second))
            || (name == "max" && self.includes(Version::Fifth))
    }
}

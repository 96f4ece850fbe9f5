//! The conditions of a policy.
ghost use Rattle.std.specs.Prelude.{◌≡◌, ◌≤◌, length, None};
ghost use Rattle.std.specs.List.{list_any};
ghost use Rattle.sarif_entries.specs.Matching.{matches};
ghost use Rattle.sarif_policy.specs.Condition as said;
ghost use Rattle.sarif_policy.specs.Limits.{most_conditions};

use crate::decimal::Decimal;
use crate::rating::Rating;
use sarif_change::Scope;
use sarif_entries::Entry;
use sarif_model::{Level, Record, Sequence, Text};
use sarif_options::States;

/// Whether a result without a security severity meets a minimum.
#[derive(Clone, Copy, Debug, PartialEq, Eq)]
pub enum Unrated {
    /// A result without a security severity meets the minimum.
    Count,
    /// A result without a security severity doesn't meet the minimum.
    Skip,
}

/// A minimum security severity.
#[derive(Debug, Drop)]
pub struct Minimum {
    /// `minSecuritySeverity`.
    pub least: Decimal,
    /// `unrated`: whether a result without a rating meets it.
    pub unrated: Unrated,
}

impl Minimum {
    /// Returns whether a result with this rating meets the minimum.
    pub fn is_met(&self, rating: &Rating) -> bool
        ensures { result ≡ said.meets self.now rating.now }
    {
        match rating {
            Rating::Missing => self.unrated == Unrated::Count,
            Rating::Number(number) => number.is_at_least(&self.least),
            Rating::Unknown => true,
        }
    }
}

/// A condition of the gate: which results it checks, which of these are hits, and how many hits it allows.
#[derive(Debug, Drop)]
pub struct GateCondition {
    /// `name`: no other condition of the policy has it.
    pub name: Text,
    /// `level`: the minimum level of a hit.
    pub level: Level,
    /// `states`: the states of hits.
    pub states: States,
    /// `max`: how many hits it allows.
    pub max: u32,
    /// `ratchet`: whether it allows one more hit for each result that is no longer reported.
    pub ratchet: bool,
    /// `only`: filters; if there are some, at least one must match.
    pub only: Option<Sequence<Entry>>,
    /// `except`: filters; none may match.
    pub except: Sequence<Entry>,
    /// `minSecuritySeverity` and `unrated`: the minimum security severity of a hit, if there is one.
    pub minimum: Option<Minimum>,
    /// `diff`: hits must be inside the change, in this scope.
    pub diff: Option<Scope>,
}

/// Returns whether a filter matches the result.
fn match_any(filters: &[Entry], record: &Record) -> bool
    ensures { result ≡ list_any (λ e. matches None e «record».now) filters.now }
{
    filters.iter().any(|filter| filter.matches(None, record))
}

impl GateCondition {
    /// Returns whether the condition checks the result: one of the filters of `only` matches it, if there are some, and
    /// none of `except` does.
    pub fn checks(&self, record: &Record) -> bool
        ensures { result ≡ said.checks self.now «record».now }
    {
        let chosen = match &self.only {
            None => true,
            Some(only) => match_any(only.as_slice(), record),
        };
        chosen && !match_any(self.except.as_slice(), record)
    }
}

/// A policy: the conditions of the gate, in the order of the file.
#[derive(Debug, Drop)]
pub struct GatePolicy {
    /// Its conditions.
    pub conditions: Sequence<GateCondition>,
    pub ghost some: { 1 ≤ length conditions },
    pub ghost few: { length conditions ≤ most_conditions },
}

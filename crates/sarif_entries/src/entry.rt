//! An entry of the suppression file.
ghost use Rattle.std.specs.Prelude.{◌≡◌, ◌↔◌, IsTrue};
ghost use Rattle.sarif_entries.specs.Matching as said;

use crate::condition::{Condition, hold};
use crate::limit::{Limit, is_admitted};
use sarif_model::{Record, Sequence, Status, Text};

/// An entry of the suppression file: which results it suppresses, until when, and the suppression that it adds.
#[derive(Debug, Drop)]
pub struct Entry {
    /// What the entry requires of a result: each condition that it names, in the order of
    /// `ConditionKind::ALL`.
    pub conditions: Sequence<Condition>,
    /// `expires`: the last date on which it suppresses, as the number YYYYMMDD.
    pub expires: Option<u32>,
    /// `status`; `accepted` if it is missing.
    pub status: Status,
    /// `justification`.
    pub justification: Option<Text>,
    /// `max`, if it has one.
    pub limit: Option<Limit>,
}

impl Entry {
    /// Returns whether the expiry date of the entry is before `today`.
    pub fn is_expired(&self, today: Option<u32>) -> bool
        ensures { result ≡ said.is_expired today self.now }
    {
        match (self.expires, today) {
            (Some(last), Some(today)) => last < today,
            _ => false,
        }
    }

    /// Returns whether the entry is not expired and the result meets every condition that it names, regardless of how
    /// many results it matches at most.
    pub fn is_met(&self, today: Option<u32>, record: &Record) -> bool
        ensures { result ≡ said.is_met today self.now «record».now }
    {
        !self.is_expired(today) && hold(self.conditions.as_slice(), record)
    }

    /// Whether the entry matches the result on that day: it isn't expired, it admits the result if it has a `max`, and the
    /// result meets every condition that it names.
    #[tactic(auto, using(crate::proofs::Meaning::means))]
    pub fn matches(&self, today: Option<u32>, record: &Record) -> bool
        ensures means { IsTrue result ↔ said.Matches today self.now «record».now }
        ensures test { result ≡ said.matches today self.now «record».now }
    {
        is_admitted(self.limit, record) && self.is_met(today, record)
    }
}

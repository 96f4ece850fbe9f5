//! What a merge writes for later merges, besides its log.
use sarif_model::Text;

/// How the suppression file is renewed.
#[derive(Debug, Drop)]
pub struct Renewal {
    /// Whether an entry is added for each hit that has no suppressions.
    pub accept: bool,
    /// Whether entries are dropped that expired, or that match nothing although their tool was heard.
    pub prune: bool,
    /// The justification of the entries that are added.
    pub reason: Option<Text>,
    /// The expiry date of the entries that are added, as YYYYMMDD.
    pub until: Option<u32>,
}

/// Which current results become known.
#[derive(Clone, Copy, Debug, PartialEq, Eq)]
pub enum Knowing {
    /// Results that the baseline knows already, and new results that are neither hits nor suppressed.
    Matched,
    /// New hits and new suppressed results too.
    Adopted,
}

/// What a merge writes for later merges, besides its log.
#[derive(Debug, Drop)]
pub struct Upkeep {
    /// How the new suppression file is made, if it is requested.
    pub renewal: Option<Renewal>,
    /// Whether the unused entries of the suppression file are listed.
    pub unused: bool,
    /// Which results the known log has, if it is requested.
    pub known: Option<Knowing>,
}

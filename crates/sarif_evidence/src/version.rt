//! The versions of matching.

/// By which rules results are matched.
#[derive(Clone, Copy, Debug, PartialEq, Eq)]
pub enum MatchingVersion {
    /// By GUIDs and fingerprints, and a result without these by its rule, place and message. Results with equal keys
    /// match from the first one on.
    Two,
    /// By regions and snippets too. A fingerprint whose value is the empty string plays no part, and results with
    /// equal keys match from the last one back.
    Three,
}

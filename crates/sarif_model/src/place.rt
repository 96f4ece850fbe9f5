//! Where a result was found.
use crate::text::Text;

/// The artifact of a result's first location, as it names it (SARIF 2.1.0, "artifactLocation
/// object").
#[derive(Debug, Drop, PartialEq, Eq, Hash)]
pub struct Place {
    /// `uri`.
    pub uri: Option<Text>,
    /// `uriBaseId`.
    pub base: Option<Text>,
}

//! The first location of a result, as reports show it.

/// What reports show of the first location of a result (SARIF 2.1.0, "physicalLocation object", "artifactLocation
/// object", "region object"). A member of the wrong type is treated as missing.
#[derive(Clone, Copy)]
pub struct FirstLocation<'a> {
    /// `physicalLocation.artifactLocation.uri`.
    pub uri: Option<&'a str>,
    /// `physicalLocation.artifactLocation.index`, into the run's artifacts.
    pub artifact: Option<u64>,
    /// `physicalLocation.region.startLine`, as it is in the log.
    pub line: Option<u64>,
    /// `physicalLocation.region.startColumn`, as it is in the log.
    pub column: Option<u64>,
}

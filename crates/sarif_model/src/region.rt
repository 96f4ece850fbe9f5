//! Where in its file a result was found.

/// The lines and columns of a result's first location, each from 1 (SARIF 2.1.0, "region object").
#[derive(Clone, Copy, Debug, PartialEq, Eq, Hash)]
pub struct Region {
    /// `startLine`.
    pub start_line: u32,
    /// `startColumn`.
    pub start_column: Option<u32>,
    /// `endLine`.
    pub end_line: Option<u32>,
    /// `endColumn`.
    pub end_column: Option<u32>,
}

//! An output that was requested besides the merged log.
use sarif_reports::Report;

/// An output that was requested besides the merged log, with its destination: the name of its file, or its writer.
#[derive(Debug, Drop)]
pub struct RequestedOutput<T> {
    /// The output.
    pub report: Report,
    /// Its destination.
    pub to: T,
}

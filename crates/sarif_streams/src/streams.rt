//! How standard streams are named.

/// The word for a standard stream, where a log is read or an output is written.
pub const STANDARD: &str = "-";

//! Why a file gives no arguments.
use thiserror::Error;

/// Why a file gives no arguments.
#[derive(Clone, Copy, Debug, PartialEq, Eq, Error)]
pub enum ArgumentFileFault {
    /// The file has more than `MOST_FILE_BYTES` bytes.
    #[error("has more than 1,048,576 bytes")]
    TooLong,
    /// The file is not UTF-8.
    #[error("is not UTF-8")]
    NotUtf8,
    /// The file has the character NUL.
    #[error("has a NUL character")]
    HasNul,
    /// The file has more than `MOST_FILE_LINES` lines.
    #[error("has more than 10,000 lines")]
    TooManyLines,
    /// A line begins with `@`.
    #[error("has a line that begins with @, and files of arguments do not nest")]
    Nested,
}

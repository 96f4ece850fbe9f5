//! The limits of a file of arguments.

/// The most bytes of a file of arguments.
pub const MOST_FILE_BYTES: usize = 1_048_576;

/// The most lines of a file of arguments.
pub const MOST_FILE_LINES: usize = 10_000;

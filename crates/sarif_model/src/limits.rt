//! The limits of what a merge reads. The definitions are in `specs/Limits.antt`, under the same names in small
//! letters.

/// The most bytes of a log, of a baseline and of the suppression file.
pub const MOST_BYTES: usize = 67_108_864;

/// The most logs of a merge, and the most baselines.
pub const MOST_SOURCES: usize = 1_000;

/// The most runs of a log, and of a merge.
pub const MOST_RUNS: usize = 10_000;

/// The most results of a log, and of a merge.
pub const MOST_RESULTS: usize = 1_000_000;

/// The most entries of a suppression file.
pub const MOST_ENTRIES: usize = 10_000;

/// The most worker threads.
pub const MOST_WORKERS: u32 = 64;

/// The first date, as YYYYMMDD.
pub const FIRST_DAY: u32 = 10_000_101;

/// The last date, as YYYYMMDD.
pub const LAST_DAY: u32 = 99_991_231;

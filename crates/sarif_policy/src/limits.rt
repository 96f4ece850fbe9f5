//! How large a policy may be.
//! The definitions are in `specs/Limits.antt`, under the same names in small letters.

/// The greatest number of conditions of a policy.
pub const MOST_CONDITIONS: usize = 100;

/// The greatest number of filters in a list.
pub const MOST_FILTERS: usize = 1_000;

/// The greatest length of the name of a condition.
pub const LONGEST_NAME: usize = 50;

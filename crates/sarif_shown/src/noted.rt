//! What a merge did not check.

/// The numbers of the sentences on what a merge did not check. There is a sentence on each that isn't 0.
#[derive(Clone, Copy, Debug, PartialEq, Eq)]
pub struct Noted {
    /// How many input runs have no results.
    pub without: u32,
    /// How many entries of the suppression file match no current result.
    pub unused: u32,
    /// How many filters of a policy match no current result; 0 without a policy.
    pub filters: u32,
    /// How many results outside of the change would be hits; 0 with a policy.
    pub outside: u32,
    /// How many active current results no condition of a policy checks; 0 without a policy.
    pub unchecked: u32,
}

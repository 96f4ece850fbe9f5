//! What a diff changes: its sections, and the changed lines of each.
use crate::name::Name;
use sarif_model::Sequence;

/// Changed lines of the new file, which follow each other.
#[derive(Clone, Copy, Debug, PartialEq, Eq)]
pub struct Span {
    /// The number of the first, from 1.
    pub first: u64,
    /// The number of the last.
    pub last: u64,
}

/// A section of a diff: what one commit changes in one file.
#[derive(Debug, Drop)]
pub struct Section {
    /// The file.
    pub name: Name,
    /// Its name before a rename.
    pub old: Option<Name>,
    /// Whether the diff doesn't say which lines of the file changed, so that all of them are treated as changed.
    pub whole: bool,
    /// Whether the file is a symbolic link.
    pub link: bool,
    /// The changed lines, run by run.
    pub spans: Sequence<Span>,
}

/// What a diff changes.
#[derive(Debug, Drop)]
pub struct Change {
    /// The sections, in the order of the diff. A file may have several.
    pub sections: Sequence<Section>,
    /// How many lines the hunks add.
    pub added: usize,
}

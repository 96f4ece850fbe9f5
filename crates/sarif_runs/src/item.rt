//! What is known about a result before results are matched.
use sarif_model::{Fault, Record};

/// A result of a run as its worker found it.
#[derive(Debug, Drop)]
pub enum Item {
    /// Its record.
    Sound(Record),
    /// Its first error.
    Bad(Fault),
    /// A result of a baseline that is absent already.
    Skipped,
}

//! The readers of a merge, what they give, and why they are not all read.
use crate::counted::Counted;
use crate::source::SourceFault;
use sarif_model::Source;
use std::fmt;

/// The inputs of a merge: the logs, the baselines, and the suppression file, the policy and the diff, if there are
/// any.
#[derive(Debug, Drop)]
pub struct Readers<R> {
    /// A reader for each log, in order.
    pub logs: Vec<Counted<R>>,
    /// A reader for each baseline, in order.
    pub baselines: Vec<Counted<R>>,
    /// The reader of the suppression file, if there is one.
    pub suppressions: Option<Counted<R>>,
    /// The reader of the policy, if there is one.
    pub policy: Option<Counted<R>>,
    /// The reader of the diff, if there is one.
    pub diff: Option<Counted<R>>,
}

/// The bytes that the readers of a merge gave, each up to its end.
#[derive(Debug, Drop)]
pub struct SourceBytes {
    /// The bytes of each log, in order.
    pub logs: Vec<Vec<u8>>,
    /// The bytes of each baseline, in order.
    pub baselines: Vec<Vec<u8>>,
    /// The bytes of the suppression file, if there is one.
    pub suppressions: Option<Vec<u8>>,
    /// The bytes of the policy, if there is one.
    pub policy: Option<Vec<u8>>,
    /// The bytes of the diff, if there is one.
    pub diff: Option<Vec<u8>>,
}

/// Why not all sources of a merge were read. A write cannot be the reason.
#[derive(Clone, Copy, Debug, PartialEq, Eq)]
pub struct ReadersFault {
    /// The source that was not read.
    pub source: Source,
    /// Why it was not read.
    pub fault: SourceFault,
}

impl fmt::Display for ReadersFault {
    fn fmt<W: fmt::Write>(&self, f: &mut fmt::Formatter<W>) -> fmt::Result {
        let source = self.source;
        let fault = self.fault;
        write!(f, "{source}: {fault}")
    }
}

impl std::error::Error for ReadersFault {}

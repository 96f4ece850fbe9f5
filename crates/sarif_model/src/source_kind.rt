//! The two kinds of sources that are logs.
ghost use Rattle.std.specs.Prelude.{◌≡◌};
ghost use Rattle.sarif_model.specs.Internal.SourceKind.{source_of};

use crate::merge_fault::Source;

/// Whether a source is a log or a baseline.
#[derive(Clone, Copy, Debug, PartialEq, Eq)]
pub enum SourceKind {
    /// A log that is merged.
    Log,
    /// A log of known results, with which those of the merged logs are compared.
    Baseline,
}

impl SourceKind {
    /// The source of this kind with that number.
    pub fn source(self, number: u32) -> Source
        ensures { result ≡ source_of self number }
    {
        match self {
            SourceKind::Log => Source::Log(number),
            SourceKind::Baseline => Source::Baseline(number),
        }
    }
}

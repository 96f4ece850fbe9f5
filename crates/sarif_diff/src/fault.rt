//! What is wrong with a diff.
ghost use Rattle.std.specs.Prelude.{◌≡◌};

use sarif_model::Refusal;

/// What is wrong with a line of a diff.
#[derive(Clone, Copy, Debug, PartialEq, Eq)]
pub enum LineFault {
    /// The line begins a comparison with several parents, whose line numbers are not those of one file.
    Combined,
    /// The header of a hunk is not well formed, is in no section, or its hunk changes nothing; or a line of a hunk is
    /// none of its lines, or one too many.
    BadHunk,
    /// A name is empty, badly quoted or missing.
    BadHeader,
    /// A submodule has a new commit, and the diff doesn't say which files changed in it.
    Submodule,
    /// The line begins one section or one hunk too many.
    TooMany,
}

impl From<LineFault> for Refusal<LineFault> {
    ghost use Rattle.sarif_model.specs.declared.refusal.Refusal.TheVariants as refusal;

    ghost from_gives = { λ fault found. found ≡ refusal.Fault fault };

    fn from(fault: LineFault) -> Refusal<LineFault> {
        Refusal::Fault(fault)
    }
}

/// The first error of a diff.
#[derive(Clone, Copy, Debug, PartialEq, Eq)]
pub enum DiffFault {
    /// The diff has no section.
    NoChange,
    /// This line, counted from 1, is the first with an error. It is one past the last line if the diff ends within a
    /// hunk.
    AtLine(usize, LineFault),
}

impl From<DiffFault> for Refusal<DiffFault> {
    ghost use Rattle.sarif_model.specs.declared.refusal.Refusal.TheVariants as refusal;

    ghost from_gives = { λ fault found. found ≡ refusal.Fault fault };

    fn from(fault: DiffFault) -> Refusal<DiffFault> {
        Refusal::Fault(fault)
    }
}

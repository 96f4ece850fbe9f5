//! Why a merge is rejected, and where.
ghost use Rattle.std.specs.Prelude.{◌≡◌};
ghost use Rattle.sarif_model.specs.MergeFault.{cause_of, fault_at, exit_status, out_of_memory};

use crate::fault::Fault;
use std::alloc::{AllocError, AllocFailed};
use std::fmt;
use thiserror::Error;

/// What a merge reads and writes. Logs and baselines are numbered from 0, each kind separately.
#[derive(Clone, Copy, Debug, PartialEq, Eq)]
pub enum Source {
    /// A log, by its number among the logs.
    Log(u32),
    /// A baseline, by its number among the baselines.
    Baseline(u32),
    /// The suppression file.
    Suppress,
    /// The policy: the conditions of the gate.
    Policy,
    /// The diff of the change that the gate checks.
    Diff,
    /// The merged log.
    Output,
    /// The known log, a baseline for later merges.
    Known,
}

/// Where an error is. Runs are numbered from 0 within their log or baseline, results within their run.
#[derive(Clone, Copy, Debug, PartialEq, Eq)]
pub enum At {
    /// Neither an input nor an argument: memory ran out, or a thread could not be started.
    Nowhere,
    /// All of a source.
    Whole(Source),
    /// A run of a source.
    Run(Source, u32),
    /// A result of a run of a source.
    Single(Source, u32, u32),
    /// An entry of the suppression file, from 0.
    Entry(u32),
    /// A condition of the policy, from 0.
    Condition(u32),
    /// A filter of `only` of a condition of the policy: the number of the condition, and its own, each from 0.
    Only(u32, u32),
    /// A filter of `except` of a condition of the policy: the number of the condition, and its own, each from 0.
    Except(u32, u32),
    /// A line of the diff, from 1.
    Line(usize),
    /// A place of the hits to accept, by its number among these places, from 0.
    Place(usize),
    /// A rule of the hits to accept, by its number among these rules, from 0.
    Rule(usize),
}

/// Why a merge is rejected.
#[derive(Clone, Copy, Debug, PartialEq, Eq, Error)]
pub enum Cause {
    /// What was read is wrong.
    #[error("{0}")]
    Of(Fault),
    /// A source of more than `MOST_BYTES` bytes.
    #[error("TooLong")]
    TooLong,
    /// A read of a source failed.
    #[error("ReadFailed")]
    ReadFailed,
    /// A write of an output failed, or took none of at least one byte.
    #[error("WriteFailed")]
    WriteFailed,
    /// Memory ran out.
    #[error("OutOfMemory")]
    OutOfMemory,
    /// A thread could not be started.
    #[error("NoWorker")]
    NoWorker,
}

impl Cause {
    /// Returns the program's exit status: 3 if a read or a write failed, otherwise 2.
    pub fn status(self) -> u8
        ensures { result ≡ exit_status self }
    {
        match self {
            Cause::ReadFailed | Cause::WriteFailed => 3,
            _ => 2,
        }
    }
}

impl From<Fault> for Cause {
    ghost from_gives = { λ fault cause. cause ≡ cause_of fault };

    fn from(fault: Fault) -> Cause {
        Cause::Of(fault)
    }
}

/// Why a merge is rejected, and where the error is.
#[derive(Clone, Copy, Debug, PartialEq, Eq)]
pub struct MergeFault {
    /// Where the error is.
    pub at: At,
    /// What is wrong there.
    pub cause: Cause,
}

impl MergeFault {
    /// Returns the cause with this place; OutOfMemory and NoWorker have no place.
    pub fn with_place(at: At, cause: Cause) -> MergeFault
        ensures { result ≡ fault_at at cause }
    {
        match cause {
            Cause::OutOfMemory | Cause::NoWorker => MergeFault {
                at: At::Nowhere,
                cause,
            },
            _ => MergeFault { at, cause },
        }
    }
}

impl From<AllocError> for MergeFault {
    ghost from_gives = { λ _ fault. fault ≡ out_of_memory };

    fn from(_error: AllocError) -> MergeFault {
        MergeFault {
            at: At::Nowhere,
            cause: Cause::OutOfMemory,
        }
    }
}

impl<T: Drop> From<AllocFailed<T>> for MergeFault {
    ghost from_gives = { λ _ fault. fault ≡ out_of_memory };

    fn from(_error: AllocFailed<T>) -> MergeFault {
        MergeFault {
            at: At::Nowhere,
            cause: Cause::OutOfMemory,
        }
    }
}

impl fmt::Display for Source {
    ghost use Rattle.std.specs.Prelude.{Some};
    ghost use Rattle.sarif_model.specs.FaultText.{source_text};

    ghost output = { λ source. Some (source_text source) };

    fn fmt<W: fmt::Write>(&self, f: &mut fmt::Formatter<W>) -> fmt::Result {
        match *self {
            Source::Log(number) => write!(f, "log {number}"),
            Source::Baseline(number) => write!(f, "baseline {number}"),
            Source::Suppress => f.write_str("suppressions"),
            Source::Policy => f.write_str("policy"),
            Source::Diff => f.write_str("diff"),
            Source::Output => f.write_str("output"),
            Source::Known => f.write_str("known log"),
        }
    }
}

impl fmt::Display for At {
    ghost use Rattle.std.specs.Prelude.{Some};
    ghost use Rattle.sarif_model.specs.FaultText.{at_text};

    ghost output = { λ at. Some (at_text at) };

    fn fmt<W: fmt::Write>(&self, f: &mut fmt::Formatter<W>) -> fmt::Result {
        match *self {
            At::Nowhere => Ok(()),
            At::Whole(source) => write!(f, "{source}"),
            At::Run(source, run) => write!(f, "{source}, run {run}"),
            At::Single(source, run, number) => write!(f, "{source}, run {run}, result {number}"),
            At::Entry(entry) => write!(f, "suppressions, entry {entry}"),
            At::Condition(number) => write!(f, "policy, condition {number}"),
            At::Only(number, filter) => { write!(f, "policy, condition {number}, only {filter}") }
            At::Except(number, filter) => {
                write!(f, "policy, condition {number}, except {filter}")
            }
            At::Line(number) => write!(f, "diff, line {number}"),
            At::Place(number) => write!(f, "--at {number}"),
            At::Rule(number) => write!(f, "--rule {number}"),
        }
    }
}

impl fmt::Display for MergeFault {
    fn fmt<W: fmt::Write>(&self, f: &mut fmt::Formatter<W>) -> fmt::Result {
        let at = self.at;
        let cause = self.cause;
        match at {
            At::Nowhere => write!(f, "{cause}"),
            _ => write!(f, "{at}: {cause}"),
        }
    }
}

impl std::error::Error for MergeFault {}

//! Why a call that allocates fails.
ghost use Rattle.std.specs.Prelude.{◌≡◌};

use crate::fault::Fault;
use std::alloc::{AllocError, AllocFailed};
use std::fmt;

/// Why a call that allocates fails: an error in what it reads, or out of memory.
#[derive(Clone, Copy, Debug, PartialEq, Eq)]
pub enum Refusal<F> {
    /// What it reads has this error.
    Fault(F),
    /// Memory ran out.
    OutOfMemory,
}

impl<F> From<AllocError> for Refusal<F> {
    ghost use Rattle.sarif_model.specs.declared.refusal.Refusal.TheVariants.{OutOfMemory};

    ghost from_gives = { λ _ refusal. refusal ≡ OutOfMemory };

    fn from(_error: AllocError) -> Refusal<F> {
        Refusal::OutOfMemory
    }
}

impl<F, T: Drop> From<AllocFailed<T>> for Refusal<F> {
    ghost use Rattle.sarif_model.specs.declared.refusal.Refusal.TheVariants.{OutOfMemory};

    ghost from_gives = { λ _ refusal. refusal ≡ OutOfMemory };

    fn from(_error: AllocFailed<T>) -> Refusal<F> {
        Refusal::OutOfMemory
    }
}

impl From<Fault> for Refusal<Fault> {
    ghost use Rattle.sarif_model.specs.declared.refusal.Refusal.TheVariants as refusal;

    ghost from_gives = { λ fault found. found ≡ refusal.Fault fault };

    fn from(fault: Fault) -> Refusal<Fault> {
        Refusal::Fault(fault)
    }
}

impl<F: fmt::Display> fmt::Display for Refusal<F> {
    fn fmt<W: fmt::Write>(&self, f: &mut fmt::Formatter<W>) -> fmt::Result {
        match self {
            Refusal::Fault(fault) => write!(f, "{fault}"),
            Refusal::OutOfMemory => f.write_str("OutOfMemory"),
        }
    }
}

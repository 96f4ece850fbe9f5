//! A whole list of arrivals, on one thread. Only tests and callers outside this program use this call: the merge
//! collects arrivals as they come.
ghost use Rattle.std.specs.Prelude.{◌≡◌, ◌≤◌, ◌<◌, ◌^◌, replicate, vec_len, IfOk, IfErr};
ghost use Rattle.sarif_collect.specs.declared.piece.Why.TheVariants.{OutOfMemory};
ghost use Rattle.sarif_collect.specs.Arriving.{IsFirstFault};
ghost use Rattle.sarif_collect.specs.Held.{empty_run};
ghost use Rattle.sarif_collect.specs.Lawful.{IsLawful, assembled};
ghost use Rattle.sarif_dispatch.specs.Limits.{most_runs};

use crate::collector::Collector;
use crate::lists::Lists;
use crate::piece::{Piece, Refused, Why};
use std::alloc::Global;

/// The number of the first rejected arrival, and why; or the number of all arrivals, if a run has no close.
#[derive(Clone, Copy, Debug, PartialEq, Eq)]
pub struct CollectFault {
    /// The number of the arrival, from 0, or how many there are.
    pub at: u32,
    /// Why it is rejected.
    pub why: Why,
}

/// Returns what these arrivals assemble to, if and only if they are lawful and there is enough memory. Otherwise
/// it returns the first error: the number of the first rejected arrival, with the reason of [`Collector::accept`],
/// or the number of all arrivals with `Unclosed`, if a run has no close. If memory for a collector runs out, that
/// is `OutOfMemory` at 0.
pub fn collect<T: Drop, C: Drop>(
    alloc: Global,
    runs: u32,
    arrivals: Vec<Piece<T, C>>,
) -> Result<Lists<T, C>, CollectFault>
    requires runs { runs ≤ most_runs }
    requires few { vec_len arrivals < 2 ^ 32 }
    ensures lawful { IfOk result (λ lists. IsLawful runs arrivals.items
        × (lists ≡ assembled runs arrivals.items)) }
    ensures unlawful { IfErr result (λ fault. IsLawful runs arrivals.items
        → fault.why ≡ OutOfMemory) }
    ensures first { IfErr result (λ fault.
        IsFirstFault (replicate runs empty_run) arrivals.items fault.at fault.why) }
{
    let Ok(mut collector) = Collector::new(alloc, runs) else {
        return Err(CollectFault {
            at: 0,
            why: Why::OutOfMemory,
        });
    };
    let mut at = 0;
    for piece in arrivals {
        if let Err(Refused { piece: _, why }) = collector.accept(piece) {
            return Err(CollectFault { at, why });
        }
        at += 1;
    }
    match collector.finish() {
        Ok(lists) => Ok(lists),
        Err((run, _)) => Err(CollectFault {
            at,
            why: Why::Unclosed(run),
        }),
    }
}

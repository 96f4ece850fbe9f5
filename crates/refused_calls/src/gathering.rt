//! The whole: a worker, the mailbox, the deal and the collector.
ghost use Rattle.std.specs.Prelude.{◌≤◌};

use sarif_gather::{NoGate, Work, gather};
use std::alloc::{AllocError, Global};
use std::sync::Wait;
use std::thread::Threads;

const RUNS: u32 = 5;

const ITEMS: u32 = 200;

/// Runs whose items are their numbers. No item allocates.
#[derive(Clone, Copy)]
struct NumberRuns;

impl Work for NumberRuns {
    type Head = u32;

    type Item = u32;

    type Tail = ();

    ghost run_count = { λ w. 5 };

    ghost count = { λ w run. 200 };

    ghost item = { λ w run seq. seq };

    ghost end = { λ w run. tt };

    ghost IsHeadOf = { λ w run head. head ≡ run };

    ghost use Rattle.std.specs.Prelude.{◌≡◌};
    ghost use Rattle.std.proofs.Common.{arith};

    ghost few = { λ w. Prim.omega arith };

    fn runs(&self) -> u32 {
        RUNS
    }

    fn start(&self, _alloc: Global, run: u32) -> Result<u32, AllocError> {
        Ok(run)
    }

    fn len(&self, _head: &u32) -> u32 {
        ITEMS
    }

    fn make(&self, _alloc: Global, _head: &u32, seq: u32) -> Result<u32, AllocError> {
        Ok(seq)
    }

    fn tail(&self, _head: u32) {}
}

/// How many runs this many workers, 1 to 64, gathered, how many items the last of them has, and the last of these; or
/// why nothing was gathered.
pub fn gather_numbers<R: Threads + Wait + Sync>(
    rt: &R,
    alloc: Global,
    workers: u32,
) -> Result<String, AllocError>
    requires workers { (1 ≤ workers) × (workers ≤ 64) }
{
    match gather(rt, alloc, &NumberRuns, workers, 1, &NoGate) {
        Ok(mut lists) => match lists.pop() {
            Some((items, ())) => {
                let (runs, count, last) = (lists.runs(), items.len(), items.last());
                format!(in alloc; "{runs} runs and one of {count} items, the last {last:?}")
            }
            None => String::from_str(alloc, "no run"),
        },
        Err(fault) => format!(in alloc; "{fault:?}"),
    }
}

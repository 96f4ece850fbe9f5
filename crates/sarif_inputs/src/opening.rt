//! Opening the runs that were read, some of them at the same time.
ghost use Rattle.std.specs.Prelude.{◌≡◌, IfOk, map};
ghost use Rattle.sarif_runs.specs.Internal.Opened.{placed_of};
ghost use Rattle.sarif_inputs.specs.Internal.ReadRun.{placed_read};

use crate::read_run::ReadRun;
use sarif_runs::OpenedRun;
use sarif_share::{Sharing, share_jobs};
use std::alloc::{AllocError, Global};
use std::hash::RandomState;
use std::thread::Threads;

/// Opens a run.
fn open_one<'t, 'a>(
    alloc: Global,
    seed: RandomState,
    read: ReadRun<'t, 'a>,
) -> Result<OpenedRun<'t, 'a>, AllocError>
    ensures { IfOk result (λ opened. placed_of opened ≡ placed_read read.entry) }
{
    let ReadRun {
        source,
        number,
        options,
        run,
    } = read;
    OpenedRun::open(alloc, seed, source, number, options, run)
}

/// Opens runs in at most `threads` threads, this one among them, and gives them in their order.
pub(crate) fn open_each<'t, 'a, R: Threads + Sync>(
    rt: &R,
    alloc: Global,
    seed: RandomState,
    runs: Vec<ReadRun<'t, 'a>>,
    threads: u32,
) -> Result<Vec<OpenedRun<'t, 'a>>, AllocError>
    ensures { IfOk result
        (λ opened. map placed_of opened.items ≡ map placed_read runs.entry.items) }
{
    let sharing = Sharing {
        rt,
        alloc,
        threads,
        least: 1,
    };
    let one = move |read|
        ensures { IfOk result (λ opened. placed_of opened ≡ placed_read read.entry) }
    { open_one(alloc, seed, read) };
    let opened = share_jobs(&sharing, runs, &one)?;
    Ok(opened)
}

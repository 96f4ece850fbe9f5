//! That the room of a team bounds what waits for the calling thread.
ghost use Rattle.std.specs.Prelude.{◌≤◌, ℕ, List, length, map};
ghost use Rattle.sarif_inputs.specs.Internal.Indexes.{AreIndexesOf};
ghost use Rattle.sarif_model.specs.Limits.{most_results, most_runs};
ghost use Rattle.sarif_model.specs.Run.{results_total};
ghost use Rattle.sarif_runs.specs.Judging.{run_values};
ghost use Rattle.sarif_runs.specs.Internal.Opened.{placed_of};

use json::Scratch;
use json_parts::{Index, IndexFault};
use sarif_gather::Gate;
use sarif_inputs::{Opening, index_sources, open_sources};
use sarif_judge::{Team, judge};
use sarif_options::Checks;
use sarif_runs::OpenedRun;
use sarif_suppress::Suppressions;
use std::alloc::{AllocError, Global};
use std::hash::RandomState;
use std::sync::Wait;
use std::sync::atomic::{AtomicU64, Ordering};
use std::test::Fail;
use std::thread::Threads;

const WORKERS: u32 = 7;

const ROOM: u32 = 1;

/// A log of one run with 1,000 results.
fn log_of_many(alloc: Global) -> Result<String, AllocError> {
    let mut log = String::from_str(alloc, r#"{"version":"2.1.0","runs":[{"results":["#)?;
    for number in 0..1_000 {
        let comma = if number == 0 { "" } else { "," };
        log.push_str(comma)?;
        log.push_str(r#"{"message":{"text":"m"}}"#)?;
    }
    log.push_str(r#"],"tool":{"driver":{"name":"lint"}}}]}"#)?;
    Ok(log)
}

/// How often a test checks a flag before it treats it as unset.
const TURNS: u32 = 50_000_000;

/// Notes a shard that is made while more than the room's parcels wait. The first call of `taken` returns once it noted one,
/// or after a while.
#[derive(Drop)]
struct Watch {
    made: AtomicU64,
    taken: AtomicU64,
    misses: AtomicU64,
}

impl Watch {
    fn new() -> Watch {
        Watch {
            made: AtomicU64::new(0),
            taken: AtomicU64::new(0),
            misses: AtomicU64::new(0),
        }
    }

    fn waits_for_a_miss(&self) {
        for _ in 0..TURNS {
            if self.misses.load(Ordering::SeqCst) != 0 {
                return;
            }
        }
    }
}

impl Gate for Watch {
    // Each worker has at most one shard that isn't in the mailbox, and the calling thread one that it doesn't count yet.
    fn making(&self, _run: u32, _seq: u32) {
        let made = self.made.fetch_add(1, Ordering::SeqCst).wrapping_add(1);
        let taken = self.taken.load(Ordering::SeqCst);
        if made > taken.wrapping_add((WORKERS + ROOM + 1) as u64) {
            self.misses.store(1, Ordering::SeqCst);
        }
    }

    fn taken(&self, _run: u32, _seq: u32) {
        if self.taken.load(Ordering::SeqCst) == 0 {
            self.waits_for_a_miss();
        }
        self.taken.fetch_add(1, Ordering::SeqCst);
    }
}

/// How many results of these runs the team judges.
fn count_judged<G: Gate + Sync, R: Threads + Wait + Sync>(
    rt: &R,
    alloc: Global,
    seed: RandomState,
    runs: &[OpenedRun<'_, '_>],
    observer: &G,
) -> Result<usize, Fail>
    requires few { length runs.now ≤ most_runs }
    requires few_results { results_total (run_values (map placed_of runs.now)) ≤ most_results }
{
    let file = Suppressions::none(alloc, seed, None)?;
    let team = Team {
        workers: WORKERS,
        room: ROOM,
    };
    match judge(rt, alloc, runs, &file, team, observer) {
        Ok(outcomes) => Ok(outcomes.len()),
        Err(_) => Err(Fail::from("not judged")),
    }
}

/// How many results of the log with this index the team judges.
fn count_indexed<G: Gate + Sync, R: Threads + Wait + Sync>(
    rt: &R,
    alloc: Global,
    seed: RandomState,
    indexes: &[Result<Index<'_>, IndexFault>],
    observer: &G,
) -> Result<usize, Fail>
    requires { (logs : List (List ℕ)) × (baselines : List (List ℕ))
        × AreIndexesOf logs baselines indexes.now 1 }
{
    let checks = Checks::new(alloc);
    let opening = Opening {
        checks: &checks,
        seed,
    };
    match open_sources(rt, alloc, opening, indexes, 1, 1) {
        Ok(runs) => count_judged(rt, alloc, seed, &runs.current, observer),
        Err(_) => Err(Fail::from("not opened")),
    }
}

/// How many results of a log the team judges.
fn count_read<G: Gate + Sync, R: Threads + Wait + Sync>(
    rt: &R,
    alloc: Global,
    seed: RandomState,
    log: &str,
    observer: &G,
) -> Result<usize, Fail> {
    let logs = vec![in alloc; log.as_bytes().to_vec(alloc)?]?;
    let mut scratches = vec![in alloc; Scratch::new(alloc)]?;
    let indexes = index_sources(rt, alloc, &logs, &[], &mut scratches, 1)?;
    count_indexed(rt, alloc, seed, &indexes, observer)
}

/// 1,000 results are 112 shards to seven workers: nine results each, and one in the last.
#[test]
fn room_bounds_what_waits(rt: HostRuntime) -> Result<(), Fail> {
    let log = log_of_many(rt.alloc())?;
    let seed = RandomState::new(&rt)?;
    let observer = Watch::new();
    let judged = count_read(&rt, rt.alloc(), seed, log.as_str(), &observer)?;
    assert_eq!(rt; judged, 1_000);
    assert_eq!(rt; observer.misses.load(Ordering::SeqCst), 0);
    assert_eq!(rt; observer.made.load(Ordering::SeqCst), 112);
    assert_eq!(rt; observer.taken.load(Ordering::SeqCst), 112);
    Ok(())
}

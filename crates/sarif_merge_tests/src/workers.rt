//! That workers give the same log, work at once, and judge each shard of the results once.
use sarif_gather::Gate;
use sarif_merge::merge_to;
use sarif_model::MergeFault;
use sarif_options::Policy;
use sarif_streams::Counted;
use std::alloc::{AllocError, Global};
use std::process::Abort;
use std::sync::Wait;
use std::sync::atomic::{AtomicU64, Ordering};
use std::test::Fail;
use std::thread::Threads;
use test_merges::{
    ExpectedCounts, NOTHING, Texts, expect_log, log_of, merge, merge_watched, one_log, options_by,
    readers_of,
};

#[test]
fn the_log_is_the_same_for_all_workers(rt: HostRuntime) -> Result<(), Fail> {
    let mut given = one_log(rt.alloc(), "lint: A A; b: ; lint: A")?;
    let wanted = ExpectedCounts {
        new: "0,3,0,0",
        ..NOTHING
    };
    for workers in [1, 8, 64] {
        given.workers = workers;
        expect_log(&rt, &given, wanted, "lint: A_NEW A_NEW; b: ; lint: A_NEW")?;
    }
    Ok(())
}

// How often a test reads a flag before it notes a miss.
const TURNS: u32 = 50_000_000;

// True once the flag is set.
fn waits_for(flag: &AtomicU64) -> bool {
    for _ in 0..TURNS {
        if flag.load(Ordering::SeqCst) != 0 {
            return true;
        }
    }
    false
}

/// The worker of each of the first two shards waits for the worker of the other.
#[derive(Drop)]
struct ShardMeeting {
    started: [AtomicU64; 2],
    misses: AtomicU64,
}

impl Gate for ShardMeeting {
    fn making(&self, run: u32, _seq: u32) {
        if run > 1 {
            return;
        }
        self.started[run as usize].store(1, Ordering::SeqCst);
        if !waits_for(&self.started[1 - run as usize]) {
            self.misses.store(1, Ordering::SeqCst);
        }
    }

    fn taken(&self, _run: u32, _seq: u32) {}
}

impl ShardMeeting {
    fn new() -> ShardMeeting {
        ShardMeeting {
            started: [AtomicU64::new(0), AtomicU64::new(0)],
            misses: AtomicU64::new(0),
        }
    }
}

#[test]
fn two_workers_meet(rt: HostRuntime) -> Result<(), Fail> {
    let mut given = one_log(rt.alloc(), "lint: A; lint: A")?;
    given.workers = 2;
    let observer = ShardMeeting::new();
    merge_watched(&rt, &given, &observer)?;
    assert_eq!(rt; observer.misses.load(Ordering::SeqCst), 0);
    Ok(())
}

/// The merged log of one log, from a reader into a writer that holds what it accepted.
fn write_watched<G: Gate + Sync, R: Abort + AllocGlobal + Threads + Wait + Sync>(
    rt: &R,
    log: &str,
    workers: u32,
    observer: &G,
) -> Result<Vec<u8>, MergeFault> {
    assert!(rt; 1 <= workers && workers <= 64);
    let mut taken = Vec::new(rt.alloc());
    let mut readers = readers_of(rt.alloc(), Texts::of(log))?;
    let options = options_by(rt.alloc(), Policy::default(), None, workers)?;
    merge_to(
        rt,
        rt.alloc(),
        &mut readers,
        &mut Counted::new(&mut taken),
        &options,
        observer,
    )?;
    Ok(taken)
}

#[test]
fn two_workers_meet_over_what_a_reader_gives(rt: HostRuntime) -> Result<(), Fail> {
    let log = log_of(rt.alloc(), "lint: A; lint: A")?;
    let observer = ShardMeeting::new();
    let written = write_watched(&rt, log.as_str(), 2, &observer)?;
    assert_eq!(rt; observer.misses.load(Ordering::SeqCst), 0);
    let given = one_log(rt.alloc(), "lint: A; lint: A")?;
    let merged = merge(&rt, &given)?;
    assert_eq!(rt; written.as_slice(), merged.log.as_str().as_bytes());
    Ok(())
}

/// Notes which shards it saw, each by its bit, and how often.
#[derive(Drop)]
struct SeenShards {
    shards: AtomicU64,
    times: AtomicU64,
}

impl SeenShards {
    fn new() -> SeenShards {
        SeenShards {
            shards: AtomicU64::new(0),
            times: AtomicU64::new(0),
        }
    }

    fn hear(&self, shard: u32) {
        if shard < 64 {
            self.shards.fetch_or(1 << shard, Ordering::SeqCst);
        }
        self.times.fetch_add(1, Ordering::SeqCst);
    }

    fn shards(&self) -> u64 {
        self.shards.load(Ordering::SeqCst)
    }

    fn times(&self) -> u64 {
        self.times.load(Ordering::SeqCst)
    }
}

/// Looks on while shards of results are judged and taken.
#[derive(Drop)]
struct Onlooker {
    made: SeenShards,
    taken: SeenShards,
}

impl Gate for Onlooker {
    fn making(&self, run: u32, _seq: u32) {
        self.made.hear(run);
    }

    fn taken(&self, run: u32, _seq: u32) {
        self.taken.hear(run);
    }
}

/// A run with this many results.
fn run_of_many(alloc: Global, times: u32) -> Result<String, AllocError> {
    let mut runs = String::from_str(alloc, "lint:")?;
    for _ in 0..times {
        runs.push_str(" M")?;
    }
    Ok(runs)
}

/// 1,000 results of one run are 16 shards to one worker: 63 results each, and 55 in the last.
#[test]
fn each_shard_is_judged_and_taken_once(rt: HostRuntime) -> Result<(), Fail> {
    let runs = run_of_many(rt.alloc(), 1_000)?;
    let given = one_log(rt.alloc(), runs.as_str())?;
    let observer = Onlooker {
        made: SeenShards::new(),
        taken: SeenShards::new(),
    };
    merge_watched(&rt, &given, &observer)?;
    assert_eq!(rt; observer.made.shards(), 0xffff);
    assert_eq!(rt; observer.made.times(), 16);
    assert_eq!(rt; observer.taken.shards(), 0xffff);
    assert_eq!(rt; observer.taken.times(), 16);
    Ok(())
}

/// The results of one run are shared among workers, so that a log of one run keeps many workers busy.
#[test]
fn results_of_one_run_are_shared_out(rt: HostRuntime) -> Result<(), Fail> {
    let mut given = one_log(rt.alloc(), "lint: A A")?;
    given.workers = 2;
    let observer = ShardMeeting::new();
    merge_watched(&rt, &given, &observer)?;
    assert_eq!(rt; observer.misses.load(Ordering::SeqCst), 0);
    Ok(())
}

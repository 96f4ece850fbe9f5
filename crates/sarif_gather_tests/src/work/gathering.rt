//! The whole: workers, the mailbox, the deal and the collector.
ghost use Rattle.std.specs.Prelude.{◌≡◌, ◌≤◌, ◌<◌, ◌+◌, ◌*◌, length, slice_index};

use sarif_gather::{Gate, GatherFault, Lists, NoGate, Work, gather};
use std::alloc::{AllocError, Global};
use std::process::Abort;
use std::sync::Wait;
use std::sync::atomic::{AtomicU64, Ordering};
use std::test::Fail;
use std::thread::Threads;

// How often a test reads a flag before it notes a miss.
const TURNS: u32 = 50_000_000;

// True once the flag is set.
fn waits_for(flag: &AtomicU64) -> bool {
    for _ in 0..TURNS {
        if flag.load(Ordering::SeqCst) != 0 {
            return true;
        }
    }
    false
}

// True once two were counted.
fn waits_for_two(count: &AtomicU64) -> bool {
    for _ in 0..TURNS {
        if count.load(Ordering::SeqCst) > 1 {
            return true;
        }
    }
    false
}

/// Runs with this many items. The item of a run with a number is 100,000 times the run, plus the number.
#[derive(Clone, Copy)]
struct Numbers<'a> {
    counts: &'a [u32],
    // The item for which there is no memory.
    lacking: Option<(u32, u32)>,
    ghost few: { length counts.now ≤ 10000 },
}

impl<'a> Work for Numbers<'a> {
    type Head = u32;

    type Item = u64;

    type Tail = u32;

    ghost run_count = { λ w. length w.counts.now };

    ghost count = { λ w run. slice_index w.counts.now run };

    ghost item = { λ w run seq. 100000 * run + seq };

    ghost end = { λ w run. run };

    ghost IsHeadOf = { λ w run head. head ≡ run };

    ghost few = { λ w. w.few };

    fn runs(&self) -> u32 {
        self.counts.len() as u32
    }

    fn start(&self, _alloc: Global, run: u32) -> Result<u32, AllocError> {
        Ok(run)
    }

    fn len(&self, head: &u32) -> u32 {
        self.counts[*head as usize]
    }

    fn make(&self, _alloc: Global, head: &u32, seq: u32) -> Result<u64, AllocError> {
        if self.lacking == Some((*head, seq)) {
            return Err(AllocError);
        }
        Ok(100000 * *head as u64 + seq as u64)
    }

    fn tail(&self, head: u32) -> u32 {
        head
    }
}

// Each run has its items in order, and its tail.
fn assert_whole(rt: &impl Abort, counts: &[u32], lists: &Lists<u64, u32>) {
    assert!(rt; lists.runs() as usize == counts.len());
    for run in 0..lists.runs() {
        let items = lists.items(run);
        assert!(rt; items.len() == counts[run as usize] as usize);
        for (seq, item) in items.iter().enumerate() {
            assert!(rt; *item == 100000 * run as u64 + seq as u64);
        }
        assert!(rt; *lists.tail(run) == run);
    }
}

#[test]
fn lists_are_the_same_for_all_workers_and_rooms(rt: HostRuntime) -> Result<(), Fail> {
    let counts = [2, 0, 5];
    let work = Numbers {
        counts: &counts,
        lacking: None,
    };
    for (workers, room) in [(1, 1), (64, 1), (64, 4096), (1, 2), (3, 2)] {
        let Ok(lists) = gather(&rt, rt.alloc(), &work, workers, room, &NoGate) else {
            panic!(rt; "there are memory and threads")
        };
        assert_whole(&rt, &counts, &lists);
    }
    Ok(())
}

#[test]
fn many_workers_share_a_narrow_room(rt: HostRuntime) -> Result<(), Fail> {
    let counts = [20000, 20000];
    let work = Numbers {
        counts: &counts,
        lacking: None,
    };
    let Ok(lists) = gather(&rt, rt.alloc(), &work, 64, 1, &NoGate) else {
        panic!(rt; "there are memory and threads")
    };
    assert_whole(&rt, &counts, &lists);
    Ok(())
}

#[test]
fn want_of_memory_is_answered_once_all_workers_ended(rt: HostRuntime) -> Result<(), Fail> {
    let counts = [5, 5, 5];
    let work = Numbers {
        counts: &counts,
        lacking: Some((1, 3)),
    };
    for workers in [1, 2, 64] {
        let Err(fault) = gather(&rt, rt.alloc(), &work, workers, 1, &NoGate) else {
            panic!(rt; "an item has no memory")
        };
        assert!(rt; fault == GatherFault::OutOfMemory);
    }
    Ok(())
}

/// The worker of each run waits for the worker of the other. It counts the calls: of each run, and
/// of all other items.
#[derive(Drop)]
struct Meeting {
    made: [AtomicU64; 2],
    taken: [AtomicU64; 2],
    strays: AtomicU64,
    misses: AtomicU64,
}

impl Gate for Meeting {
    fn making(&self, run: u32, seq: u32) {
        if run > 1 || seq > 0 {
            self.strays.fetch_add(1, Ordering::SeqCst);
            return;
        }
        self.made[run as usize].fetch_add(1, Ordering::SeqCst);
        if !waits_for(&self.made[1 - run as usize]) {
            self.misses.store(1, Ordering::SeqCst);
        }
    }

    fn taken(&self, run: u32, seq: u32) {
        if run > 1 || seq > 0 {
            self.strays.fetch_add(1, Ordering::SeqCst);
            return;
        }
        self.taken[run as usize].fetch_add(1, Ordering::SeqCst);
    }
}

#[test]
fn two_workers_meet(rt: HostRuntime) -> Result<(), Fail> {
    let counts = [1, 1];
    let work = Numbers {
        counts: &counts,
        lacking: None,
    };
    let observer = Meeting {
        made: [AtomicU64::new(0), AtomicU64::new(0)],
        taken: [AtomicU64::new(0), AtomicU64::new(0)],
        strays: AtomicU64::new(0),
        misses: AtomicU64::new(0),
    };
    let Ok(lists) = gather(&rt, rt.alloc(), &work, 2, 1, &observer) else {
        panic!(rt; "there are memory and threads")
    };
    assert_whole(&rt, &counts, &lists);
    assert!(rt; observer.misses.load(Ordering::SeqCst) == 0);
    assert!(rt; observer.strays.load(Ordering::SeqCst) == 0);
    for calls in observer.made.iter().chain(observer.taken.iter()) {
        assert!(rt; calls.load(Ordering::SeqCst) == 1);
    }
    Ok(())
}

/// Notes an item that is made while more than the room's parcels wait, and a call for an item that
/// isn't the next of run 0.
#[derive(Drop)]
struct Room {
    room: u64,
    made: AtomicU64,
    taken: AtomicU64,
    misses: AtomicU64,
    strays: AtomicU64,
}

impl Room {
    // Counts a call, and notes it where its item isn't the next.
    fn note(&self, count: &AtomicU64, run: u32, seq: u32) {
        if run != 0 || count.fetch_add(1, Ordering::SeqCst) != seq as u64 {
            self.strays.store(1, Ordering::SeqCst);
        }
    }
}

impl Gate for Room {
    fn making(&self, run: u32, seq: u32) {
        let taken = self.taken.load(Ordering::SeqCst);
        if taken.wrapping_add(self.room).wrapping_add(1) < seq as u64 {
            self.misses.store(1, Ordering::SeqCst);
        }
        self.note(&self.made, run, seq);
    }

    fn taken(&self, run: u32, seq: u32) {
        if seq == 0 {
            waits_for(&self.misses);
        }
        self.note(&self.taken, run, seq);
    }
}

#[test]
fn room_bounds_what_waits(rt: HostRuntime) -> Result<(), Fail> {
    let counts = [100];
    let work = Numbers {
        counts: &counts,
        lacking: None,
    };
    let observer = Room {
        room: 1,
        made: AtomicU64::new(0),
        taken: AtomicU64::new(0),
        misses: AtomicU64::new(0),
        strays: AtomicU64::new(0),
    };
    let Ok(lists) = gather(&rt, rt.alloc(), &work, 1, 1, &observer) else {
        panic!(rt; "there are memory and threads")
    };
    assert_whole(&rt, &counts, &lists);
    assert!(rt; observer.misses.load(Ordering::SeqCst) == 0);
    assert!(rt; observer.strays.load(Ordering::SeqCst) == 0);
    assert!(rt; observer.made.load(Ordering::SeqCst) == 100);
    assert!(rt; observer.taken.load(Ordering::SeqCst) == 100);
    Ok(())
}

/// Three runs of one item. That of run `last` waits for those of the other two.
#[derive(Clone, Copy)]
struct Dealt<'a> {
    last: u32,
    made: &'a AtomicU64,
    misses: &'a AtomicU64,
}

impl<'a> Work for Dealt<'a> {
    type Head = u32;

    type Item = u32;

    type Tail = ();

    ghost run_count = { λ w. 3 };

    ghost count = { λ w run. 1 };

    ghost item = { λ w run seq. run };

    ghost end = { λ w run. tt };

    ghost IsHeadOf = { λ w run head. head ≡ run };

    ghost use Rattle.std.proofs.Common.{arith};

    ghost few = { λ w. Prim.omega arith };

    fn runs(&self) -> u32 {
        3
    }

    fn start(&self, _alloc: Global, run: u32) -> Result<u32, AllocError> {
        Ok(run)
    }

    fn len(&self, _head: &u32) -> u32 {
        1
    }

    fn make(&self, _alloc: Global, head: &u32, _seq: u32) -> Result<u32, AllocError> {
        if *head != self.last {
            self.made.fetch_add(1, Ordering::SeqCst);
        } else if !waits_for_two(self.made) {
            self.misses.store(1, Ordering::SeqCst);
        }
        Ok(*head)
    }

    fn tail(&self, _head: u32) {}
}

// How often two workers missed one another, where the item of this run waits for the other two.
fn misses_of<R: Threads + Wait + Abort + Sync>(rt: &R, alloc: Global, last: u32) -> u64 {
    let (made, misses) = (AtomicU64::new(0), AtomicU64::new(0));
    let work = Dealt {
        last,
        made: &made,
        misses: &misses,
    };
    let Ok(lists) = gather(rt, alloc, &work, 2, 1, &NoGate) else {
        panic!(rt; "there are memory and threads")
    };
    assert!(rt; lists.runs() == 3);
    misses.load(Ordering::SeqCst)
}

#[test]
fn runs_are_dealt_as_workers_come_free(rt: HostRuntime) -> Result<(), Fail> {
    assert!(rt; misses_of(&rt, rt.alloc(), 0) == 0);
    Ok(())
}

#[test]
fn a_worker_that_waits_with_run_1_leaves_run_2_to_the_other(rt: HostRuntime) -> Result<(), Fail> {
    assert!(rt; misses_of(&rt, rt.alloc(), 1) == 0);
    Ok(())
}

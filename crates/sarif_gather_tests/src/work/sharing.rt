//! Calls that share a list among threads: they use as many threads as are worth starting, and no more.
use sarif_share::{Sharing, share_each, share_jobs, share_parts};
use std::alloc::AllocError;
use std::sync::atomic::{AtomicU64, Ordering};
use std::test::Fail;
use std::thread;

// How often a call checks whether the others have begun before it gives up.
const TURNS: u32 = 1_000_000;

/// Calls that wait for each other.
#[derive(Drop)]
struct Meeting {
    // How many calls there are.
    calls: u64,
    // How many of them have begun.
    begun: AtomicU64,
    // How many of them gave up before all had begun.
    misses: AtomicU64,
}

impl Meeting {
    fn of(calls: u64) -> Meeting {
        Meeting {
            calls,
            begun: AtomicU64::new(0),
            misses: AtomicU64::new(0),
        }
    }

    // Whether all calls have begun, or one of them gave up.
    fn is_over(&self) -> bool {
        self.begun.load(Ordering::SeqCst) >= self.calls || self.misses.load(Ordering::SeqCst) > 0
    }

    // Begins a call, and waits until all others have begun too.
    fn attend(&self) {
        self.begun.fetch_add(1, Ordering::SeqCst);
        for _ in 0..TURNS {
            if self.is_over() {
                return;
            }
            thread::yield_now();
        }
        self.misses.fetch_add(1, Ordering::SeqCst);
    }

    // Whether all calls were running at one moment.
    fn was_full(&self) -> bool {
        self.begun.load(Ordering::SeqCst) == self.calls && self.misses.load(Ordering::SeqCst) == 0
    }
}

// How work is shared among this many threads, each with at least `least` elements.
fn sharing_among<R: AllocGlobal>(rt: &R, threads: u32, least: usize) -> Sharing<'_, R> {
    Sharing {
        rt,
        alloc: rt.alloc(),
        threads,
        least,
    }
}

#[test]
fn four_jobs_are_done_in_four_threads(rt: HostRuntime) -> Result<(), Fail> {
    let all = Meeting::of(4);
    let meeting = &all;
    let sharing = sharing_among(&rt, 4, 1);
    let one = move |job: u32| -> Result<u32, AllocError> {
        meeting.attend();
        Ok(job)
    };
    let made = share_jobs(&sharing, vec![in rt.alloc(); 3, 1, 4, 1]?, &one)?;
    assert_eq!(rt; made.as_slice(), [3, 1, 4, 1].as_slice());
    assert!(rt; all.was_full());
    Ok(())
}

#[test]
fn four_parts_of_a_list_are_read_in_four_threads(rt: HostRuntime) -> Result<(), Fail> {
    let all = Meeting::of(4);
    let meeting = &all;
    let sharing = sharing_among(&rt, 4, 2);
    let part = move |start: usize, some: &[u32]| -> (usize, usize) {
        meeting.attend();
        (start, some.len())
    };
    let made = share_parts(&sharing, &[3, 1, 4, 1, 5, 9, 2, 6], &part)?;
    assert_eq!(rt;
        made.as_slice(),
        [(0, 2), (2, 2), (4, 2), (6, 2)].as_slice()
    );
    assert!(rt; all.was_full());
    Ok(())
}

#[test]
fn four_elements_are_read_in_four_threads(rt: HostRuntime) -> Result<(), Fail> {
    let all = Meeting::of(4);
    let meeting = &all;
    let sharing = sharing_among(&rt, 4, 1);
    let one = move |item: &u32| -> Result<u32, AllocError> {
        meeting.attend();
        Ok(*item)
    };
    let made = share_each(&sharing, &[3, 1, 4, 1], &one)?;
    assert_eq!(rt; made.as_slice(), [3, 1, 4, 1].as_slice());
    assert!(rt; all.was_full());
    Ok(())
}

/// How many calls are running, and the most that ever were.
#[derive(Drop)]
struct Crowd {
    running: AtomicU64,
    most: AtomicU64,
}

impl Crowd {
    fn new() -> Crowd {
        Crowd {
            running: AtomicU64::new(0),
            most: AtomicU64::new(0),
        }
    }

    // Runs for a while.
    fn stay(&self) {
        let others = self.running.fetch_add(1, Ordering::SeqCst);
        self.most
            .fetch_max(others.wrapping_add(1), Ordering::SeqCst);
        for _ in 0..100 {
            thread::yield_now();
        }
        self.running.fetch_sub(1, Ordering::SeqCst);
    }
}

#[test]
fn no_more_threads_are_used_than_are_allowed_or_worth_starting(
    rt: HostRuntime,
) -> Result<(), Fail> {
    for (threads, least, most) in [(1, 1, 1), (2, 1, 2), (4, 16, 1), (4, 8, 2)] {
        let all = Crowd::new();
        let crowd = &all;
        let sharing = sharing_among(&rt, threads, least);
        let one = move |job: u32| -> Result<u32, AllocError> {
            crowd.stay();
            Ok(job)
        };
        let mut jobs = Vec::new(rt.alloc());
        for job in 0..16 {
            jobs.push(job)?;
        }
        let made = share_jobs(&sharing, jobs, &one)?;
        assert_eq!(rt; made.len(), 16);
        assert!(rt; all.most.load(Ordering::SeqCst) <= most);
    }
    Ok(())
}

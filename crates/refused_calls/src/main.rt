//! Makes public calls of the crates that gather work and whole merges, including calls that the merge does not make, and
//! prints their results. Each line of standard input is a call and its input. In `tests/program/calls`, allocations of this
//! program fail.
#![tactic(auto)]

mod collecting;
mod gathering;
mod mailing;
mod merging;

use std::alloc::{AllocError, Global};
use std::hash::RandomState;
use std::io;
use std::sync::Wait;
use std::thread::Threads;

fn main(rt: HostRuntime) -> io::Result<()> {
    let seed = RandomState::new(&rt)?;
    for line in rt.lines(rt.alloc()) {
        match line.and_then(|line| Ok(answer_to(&rt, rt.alloc(), seed, line.as_str())?)) {
            Ok(answer) => println!(rt; "{answer}")?,
            Err(error) if error.kind() == io::ErrorKind::OutOfMemory => {
                println!(rt; "OutOfMemory")?;
            }
            Err(error) => return Err(error),
        }
    }
    Ok(())
}

fn answer_to<R: Threads + Wait + Sync>(
    rt: &R,
    alloc: Global,
    seed: RandomState,
    line: &str,
) -> Result<String, AllocError> {
    let (call, given) = line.split_once(' ').unwrap_or((line, ""));
    match call {
        "accept" => collecting::accept(alloc),
        "collect" => collecting::collect_arrivals(alloc),
        "settle" => mailing::settle(rt, alloc),
        "gather" => gathering::gather_numbers(rt, alloc, 1),
        "gather_by_four" => gathering::gather_numbers(rt, alloc, 4),
        "merge_bytes" => merging::merged_bytes(rt, alloc, seed, given),
        "merge_to" => merging::merged_to(rt, alloc, seed, given),
        _ => String::from_str(alloc, "no such call"),
    }
}

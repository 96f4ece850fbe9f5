//! Pieces and the collector.
ghost use Rattle.std.specs.Prelude.{◌≤◌, ◌<◌, ◌^◌, vec_len};

use sarif_collect::{CollectFault, Collector, Lists, Piece, Refused, Why, collect};
use std::alloc::Global;
use std::process::Abort;
use std::test::Fail;

fn item(run: u32, seq: u32, body: u8) -> Piece<u8, u8> {
    Piece::Item { run, seq, body }
}

fn close(run: u32, count: u32, tail: u8) -> Piece<u8, u8> {
    Piece::Close { run, count, tail }
}

fn collector(alloc: Global, runs: u32) -> Result<Collector<u8, u8>, Fail>
    requires { runs ≤ 10000 }
{
    Ok(Collector::new(alloc, runs)?)
}

fn refused(piece: Piece<u8, u8>, why: Why) -> Result<(), Refused<u8, u8>> {
    Err(Refused { piece, why })
}

// Checks what the collector returns for a piece.
fn check_answer(
    rt: &impl Abort,
    all: &mut Collector<u8, u8>,
    piece: Piece<u8, u8>,
    answer: Result<(), Refused<u8, u8>>,
) {
    assert_eq!(rt; all.accept(piece), answer);
}

#[test]
fn refused_piece_comes_back_with_the_first_reason(rt: HostRuntime) -> Result<(), Fail> {
    let mut all = collector(rt.alloc(), 2)?;
    check_answer(&rt, &mut all, item(0, 0, 7), Ok(()));
    let double = refused(item(0, 0, 8), Why::Double);
    check_answer(&rt, &mut all, item(0, 0, 8), double);
    let stranger = refused(item(2, 0, 8), Why::Stranger);
    check_answer(&rt, &mut all, item(2, 0, 8), stranger);
    let short = refused(close(0, 2, 1), Why::Short);
    check_answer(&rt, &mut all, close(0, 2, 1), short);
    check_answer(&rt, &mut all, close(0, 1, 1), Ok(()));
    let late = refused(item(0, 0, 9), Why::AfterClose);
    check_answer(&rt, &mut all, item(0, 0, 9), late);
    let closed = refused(close(0, 1, 1), Why::AfterClose);
    check_answer(&rt, &mut all, close(0, 1, 1), closed);
    Ok(())
}

#[test]
fn finish_names_the_least_open_run_and_hands_the_collector_back(
    rt: HostRuntime,
) -> Result<(), Fail> {
    let mut all = collector(rt.alloc(), 2)?;
    assert!(rt; all.accept(close(0, 0, 5)).is_ok());
    let Err((run, mut all)) = all.finish() else {
        panic!(rt; "run 1 has no close")
    };
    assert_eq!(rt; run, 1);
    assert!(rt; all.accept(close(1, 0, 6)).is_ok());
    let Ok(lists) = all.finish() else {
        panic!(rt; "all runs are closed")
    };
    assert_eq!(rt; lists.runs(), 2);
    assert!(rt; lists.runs() == 2);
    assert!(rt; lists.items(0).is_empty() && lists.items(1).is_empty());
    assert!(rt; *lists.tail(0) == 5 && *lists.tail(1) == 6);
    Ok(())
}

#[test]
fn items_come_out_in_the_order_of_their_numbers(rt: HostRuntime) -> Result<(), Fail> {
    let mut all = collector(rt.alloc(), 1)?;
    for piece in [
        item(0, 3, 13),
        item(0, 1, 11),
        item(0, 0, 10),
        item(0, 2, 12),
        close(0, 4, 9),
    ] {
        assert!(rt; all.accept(piece).is_ok());
    }
    let Ok(lists) = all.finish() else {
        panic!(rt; "the run is closed")
    };
    check_run(&rt, lists, &[10, 11, 12, 13], 9);
    Ok(())
}

// Checks that there is one run: these items, and this tail.
fn check_run(rt: &impl Abort, mut lists: Lists<u8, u8>, wanted: &[u8], end: u8) {
    let Some((items, tail)) = lists.pop() else {
        panic!(rt; "there is a run")
    };
    assert_eq!(rt; items.as_slice(), wanted);
    assert_eq!(rt; tail, end);
    assert!(rt; lists.pop().is_none());
}

// The outcome of the arrivals: how many runs they assemble to, or the error.
fn told(alloc: Global, runs: u32, arrivals: Vec<Piece<u8, u8>>) -> Result<u32, CollectFault>
    requires runs { runs ≤ 10000 }
    requires few { vec_len arrivals < 2 ^ 32 }
{
    Ok(collect(alloc, runs, arrivals)?.runs())
}

fn fault(at: u32, why: Why) -> Result<u32, CollectFault> {
    Err(CollectFault { at, why })
}

#[test]
fn first_arrival_that_is_refused_is_told(rt: HostRuntime) -> Result<(), Fail> {
    let alloc = rt.alloc();
    let double = vec![in alloc; item(0, 0, 1), item(0, 0, 2)]?;
    assert_eq!(rt; told(alloc, 1, double), fault(1, Why::Double));
    let stranger = vec![in alloc; item(1, 0, 1)]?;
    assert_eq!(rt; told(alloc, 1, stranger), fault(0, Why::Stranger));
    let late = vec![in alloc; close(0, 0, 1), item(0, 0, 2)]?;
    assert_eq!(rt; told(alloc, 1, late), fault(1, Why::AfterClose));
    let closes = vec![in alloc; close(0, 0, 1), close(0, 0, 2)]?;
    assert_eq!(rt; told(alloc, 1, closes), fault(1, Why::AfterClose));
    let many = vec![in alloc; item(0, 0, 1), item(0, 1, 2), close(0, 3, 3)]?;
    assert_eq!(rt; told(alloc, 1, many), fault(2, Why::Short));
    let gap = vec![in alloc; item(0, 0, 1), item(0, 2, 2), close(0, 2, 3)]?;
    assert_eq!(rt; told(alloc, 1, gap), fault(2, Why::Short));
    let again = vec![in alloc; item(0, 0, 1), close(0, 1, 2), item(0, 0, 3)]?;
    assert_eq!(rt; told(alloc, 1, again), fault(2, Why::AfterClose));
    let far = vec![in alloc; item(0, 4294967295, 1), close(0, 1, 2)]?;
    assert_eq!(rt; told(alloc, 1, far), fault(1, Why::Short));
    assert_eq!(rt; told(alloc, 1, Vec::new(alloc)), fault(0, Why::Unclosed(0)));
    assert_eq!(rt; told(alloc, 0, Vec::new(alloc)), Ok(0));
    Ok(())
}

#[test]
fn run_that_is_out_of_order_comes_out_whole(rt: HostRuntime) -> Result<(), Fail> {
    let alloc = rt.alloc();
    let arrivals = vec![in alloc; item(0, 1, 11), item(0, 0, 10), close(0, 2, 5)]?;
    let Ok(lists) = collect(alloc, 1, arrivals) else {
        panic!(rt; "the arrivals are lawful")
    };
    assert!(rt; lists.runs() == 1);
    assert_eq!(rt; lists.items(0), [10, 11].as_slice());
    assert!(rt; *lists.tail(0) == 5);
    check_run(&rt, lists, &[10, 11], 5);
    Ok(())
}

//! The collector.
use sarif_collect::{CollectFault, Collector, Lists, Piece, Refused, Why, collect};
use std::alloc::{AllocError, Global};

fn item(run: u32, seq: u32, body: u32) -> Piece<u32, u32> {
    Piece::Item { run, seq, body }
}

fn close(run: u32, count: u32, tail: u32) -> Piece<u32, u32> {
    Piece::Close { run, count, tail }
}

/// The lists of a collector that gets each piece once more if memory ran out for it.
pub fn accept(alloc: Global) -> Result<String, AllocError> {
    let mut collector = Collector::new(alloc, 2)?;
    let mut is_again = false;
    for piece in [
        item(0, 4, 14),
        item(0, 2, 12),
        item(1, 0, 20),
        item(0, 1, 11),
        item(0, 3, 13),
        item(0, 0, 10),
        close(0, 5, 5),
        close(1, 1, 6),
    ] {
        match accept_twice(&mut collector, piece) {
            Ok(is_second) => is_again = is_again || is_second,
            Err(why) => return format!(in alloc; "{why:?}"),
        }
    }
    match collector.finish() {
        Ok(lists) => in_words(alloc, &lists, is_again),
        Err((run, _)) => format!(in alloc; "run {run} has no close"),
    }
}

// Whether the piece had to be given twice.
fn accept_twice(collector: &mut Collector<u32, u32>, piece: Piece<u32, u32>) -> Result<bool, Why> {
    let Err(Refused { piece, why }) = collector.accept(piece) else {
        return Ok(false);
    };
    if why != Why::OutOfMemory {
        return Err(why);
    }
    match collector.accept(piece) {
        Ok(()) => Ok(true),
        Err(Refused { piece: _, why }) => Err(why),
    }
}

// Each run's items and tail, and whether a piece was given twice.
fn in_words(alloc: Global, lists: &Lists<u32, u32>, is_again: bool) -> Result<String, AllocError> {
    let mut text = String::new(alloc);
    for run in 0..lists.runs() {
        let (items, tail) = (lists.items(run), lists.tail(run));
        text.push_str(format!(in alloc; "run {run}: {items:?} {tail}, ")?.as_str())?;
    }
    text.push_str(if is_again {
        "asked again"
    } else {
        "asked once"
    })?;
    Ok(text)
}

/// The outcome of arrivals. Arrival number 5 is rejected: a close that comes too early and that would allocate.
pub fn collect_arrivals(alloc: Global) -> Result<String, AllocError> {
    let arrivals = vec![in alloc;
        item(0, 4, 14),
        item(0, 2, 12),
        item(0, 1, 11),
        item(0, 3, 13),
        item(0, 0, 10),
        close(0, 6, 5),
        item(1, 0, 20),
    ]?;
    match collect(alloc, 2, arrivals) {
        Ok(lists) => in_words(alloc, &lists, false),
        Err(CollectFault { at, why }) => format!(in alloc; "{why:?} at {at}"),
    }
}

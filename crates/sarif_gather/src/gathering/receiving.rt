//! The calling thread, which takes what the workers send.
ghost use Rattle.std.specs.Prelude.{◌≡◌, [], true};
ghost use Rattle.std.specs.Bool.{OnTrue};
ghost use Rattle.sarif_collect.specs.Collecting.{with_piece, all_after};
ghost use Rattle.sarif_dispatch.specs.Ends.{IsDeskOf, taken_by};
ghost use Rattle.sarif_collect.specs.Pieces.{carried, ends_in, parcels_in};

use crate::work::Gate;
use sarif_collect::{Collector, Parcel, Piece};
use sarif_dispatch::{Desk, Mailbox};
use std::sync::Wait;

// Gives a piece to the collector, unless one was lost before. False where the collector lacks it.
fn take_in<T: Drop, C: Drop, G: Gate>(
    collector: &mut Collector<T, C>,
    observer: &G,
    piece: Piece<T, C>,
    is_whole: bool,
) -> bool
    ensures { OnTrue result ((is_whole ≡ true)
        × (collector.new ≡ with_piece collector.old piece)) }
{
    let item = match &piece {
        Piece::Item { run, seq, .. } => Some((*run, *seq)),
        Piece::Close { .. } => None,
    };
    let is_taken = is_whole && collector.accept(piece).is_ok();
    if let Some((run, seq)) = item {
        observer.taken(run, seq);
    }
    is_taken
}

/// Takes parcels until each worker that was started has sent its end, and gives the pieces to the
/// collector. False where a worker or the collector found no memory; the pieces that come after
/// that are dropped.
pub fn receive<T: Drop, C: Drop, G: Gate, R: Wait>(
    rt: &R,
    mailbox: &Mailbox<Parcel<T, C>>,
    desk: &mut Desk<Parcel<T, C>>,
    started: usize,
    collector: &mut Collector<T, C>,
    observer: &G,
) -> bool
    requires { IsDeskOf mailbox.now desk.old × (taken_by desk.old ≡ []) }
    ensures desk { IsDeskOf mailbox.now desk.new }
    ensures ends { ends_in (parcels_in (taken_by desk.new)) ≡ started }
    ensures all { OnTrue result (collector.new
        ≡ all_after collector.old (carried (parcels_in (taken_by desk.new)))) }
{
    let mut ended = 0;
    let mut is_whole = true;
    for _ in rt.forever() {
        if ended == started {
            return is_whole;
        }
        match mailbox.take_next(rt, desk) {
            (_, Parcel::Carry(piece)) => {
                is_whole = take_in(collector, observer, piece, is_whole);
            }
            (_, Parcel::End { short }) => {
                ended += 1;
                is_whole = is_whole && !short;
            }
        }
    }
    unreachable!()
}

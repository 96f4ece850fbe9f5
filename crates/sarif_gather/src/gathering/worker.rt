//! A worker, which reads the runs that it draws and sends them piece by piece.
ghost use Rattle.std.specs.Prelude.{◌≡◌, ◌<◌, true, [], ◌++◌, map, OnOk};
ghost use Rattle.std.specs.Bool.{OnTrue};
ghost use Rattle.sarif_collect.specs.declared.piece.Parcel.TheVariants.{Carry};
ghost use Rattle.sarif_dispatch.specs.Ends.{IsPostOf, number_of, sent_by};
ghost use Rattle.sarif_dispatch.specs.Hands.{IsHandOf, drawn_by, is_marked};
ghost use Rattle.sarif_collect.specs.Pieces.{pieces_of, pieces_of_runs};
ghost use Rattle.sarif_gather.specs.Internal.Served.{IsServed};

use crate::gathering::crew::Workplace;
use crate::work::{Gate, Work};
use sarif_collect::{Parcel, Piece};
use sarif_dispatch::{Hand, Post};
use std::alloc::{AllocError, Global};
use std::sync::Wait;

/// What a worker returns.
#[derive(Drop)]
pub struct Back<P> {
    /// The post by which it sent.
    pub post: Post<P>,
    /// The hand by which it drew.
    pub hand: Hand,
    /// Whether it found no memory for all of its work.
    pub short: bool,
}

// Sends a run: its items in the order of their numbers, then its close.
fn send_run<W: Work, G: Gate, R: Wait>(
    rt: &R,
    alloc: Global,
    place: &Workplace<W, G>,
    post: &mut Post<Parcel<W::Item, W::Tail>>,
    run: u32,
) -> Result<(), AllocError>
    requires run { run < W.run_count place.now.work.now }
    requires post { IsPostOf place.now.mailbox.now post.old }
    ensures post { IsPostOf place.now.mailbox.now post.new
        × (number_of post.new ≡ number_of post.old) }
    ensures sent { let work = place.now.work.now in
        OnOk result (sent_by post.new ≡ sent_by post.old
        ++ map Carry (pieces_of run (W.item work run) (W.count work run) (W.end work run))) }
{
    let head = place.work.start(alloc, run)?;
    let count = place.work.len(&head);
    for seq in 0..count {
        place.observer.making(run, seq);
        let body = place.work.make(alloc, &head, seq)?;
        let item = Piece::Item { run, seq, body };
        place.mailbox.send_on(rt, post, Parcel::Carry(item));
    }
    let tail = place.work.tail(head);
    let close = Piece::Close { run, count, tail };
    place.mailbox.send_on(rt, post, Parcel::Carry(close));
    Ok(())
}

// Draws runs and sends them, until no run is left. Returns `false` if memory ran out.
fn send_runs<W: Work, G: Gate, R: Wait>(
    rt: &R,
    alloc: Global,
    place: &Workplace<W, G>,
    post: &mut Post<Parcel<W::Item, W::Tail>>,
    hand: &mut Hand,
) -> bool
    requires post { IsPostOf place.now.mailbox.now post.old × (sent_by post.old ≡ []) }
    requires hand { IsHandOf place.now.deal.now hand.old × (drawn_by hand.old ≡ []) }
    ensures post { IsPostOf place.now.mailbox.now post.new
        × (number_of post.new ≡ number_of post.old) }
    ensures hand { IsHandOf place.now.deal.now hand.new }
    ensures all { let work = place.now.work.now in
        OnTrue result ((is_marked hand.new ≡ true) × (sent_by post.new ≡ map Carry
        (pieces_of_runs (W.count work) (W.item work) (W.end work) (drawn_by hand.new)))) }
{
    for _ in rt.forever() {
        let Some(run) = place.deal.draw(hand) else {
            return true;
        };
        if send_run(rt, alloc, place, post, run).is_err() {
            return false;
        }
    }
    unreachable!()
}

/// A worker's whole work: the runs that it draws, and its end.
pub fn serve<W: Work, G: Gate, R: Wait>(
    rt: &R,
    alloc: Global,
    place: &Workplace<W, G>,
    mut post: Post<Parcel<W::Item, W::Tail>>,
    mut hand: Hand,
) -> Back<Parcel<W::Item, W::Tail>>
    requires post { IsPostOf place.now.mailbox.now post × (sent_by post ≡ []) }
    requires hand { IsHandOf place.now.deal.now hand × (drawn_by hand ≡ []) }
    ensures { let work = place.now.work.now in
        IsServed (W.count work) (W.item work) (W.end work)
        place.now.mailbox.now place.now.deal.now (number_of post) result }
{
    let all = send_runs(rt, alloc, place, &mut post, &mut hand);
    place
        .mailbox
        .send_on(rt, &mut post, Parcel::End { short: !all });
    Back {
        post,
        hand,
        short: !all,
    }
}

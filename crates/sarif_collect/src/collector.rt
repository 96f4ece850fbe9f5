//! The collector, which puts a work's pieces together again, run by run.
ghost use Rattle.std.specs.Prelude.{◌≡◌, ◌≤◌, ◌<◌, ◌^◌, [], replicate, map, length};
ghost use Rattle.std.specs.Prelude.{OnOk, IfOk, IfErr};
ghost use Rattle.std.specs.Vec.{vec_capacity};
ghost use Rattle.sarif_collect.specs.Held.{empty_run, closed_run, first_open};
ghost use Rattle.sarif_collect.specs.Slot.{held_of, whole_of};
ghost use Rattle.sarif_collect.specs.Collecting.{refusal_of, with_piece, IsReason};
ghost use Rattle.sarif_dispatch.specs.Limits.{most_runs};

use crate::lists::Lists;
use crate::numbered::Numbered;
use crate::piece::{Piece, Refused, Why};
use crate::slot::Slot;
use std::alloc::{AllocError, Global};
use std::marker::Model;

/// Runs, each with the items that came so far, and its tail once it is closed.
#[derive(Drop)]
pub struct Collector<T, C> {
    alloc: Global,
    slots: Vec<Slot<T, C>>,
    // The list that `finish` fills.
    done: Vec<(Vec<T>, C)>,
}

impl<T, C> Model for Collector<T, C> {
    ghost use Rattle.std.specs.Prelude.{◌≡◌, ◌≤◌, ◌<◌, ◌^◌, List, [], map, length};
    ghost use Rattle.std.specs.Vec.{vec_capacity};
    ghost use Rattle.sarif_collect.specs.Held.{Held};
    ghost use Rattle.sarif_collect.specs.Slot.{held_of};

    ghost Value = { List (Held T C) };

    ghost view = { λ c. map held_of c.slots.items };

    ghost invariant = { λ c. (c.done.items ≡ []) × (length c.slots.items ≤ vec_capacity c.done)
        × (length c.slots.items < 2 ^ 32) };
}

impl<T: Drop, C: Drop> Collector<T, C> {
    /// Returns a collector of `runs` runs, at most `most_runs`, all of them open and without items. Returns
    /// `AllocError` if memory for it runs out.
    pub fn new(alloc: Global, runs: u32) -> Result<Self, AllocError>
        requires { runs ≤ most_runs }
        ensures { IfOk result (λ c. c ≡ replicate runs empty_run) }
    {
        let mut slots = Vec::with_capacity(alloc, runs as usize)?;
        for _ in 0..runs {
            slots.push_reserved(Slot::Open(Numbered::new(alloc)));
        }
        Ok(Collector {
            alloc,
            slots,
            done: Vec::with_capacity(alloc, runs as usize)?,
        })
    }

    /// Accepts a piece, or returns it with the first reason against it; then nothing changes. The reason is
    /// `Stranger` if its run is not one of these; `AfterClose` if its run is closed; `Double` if its run has an
    /// item with its number; `Short` if it is a close and the items of its run are not exactly those up to its
    /// count; `OutOfMemory` if memory for it runs out.
    pub fn accept(&mut self, piece: Piece<T, C>) -> Result<(), Refused<T, C>>
        ensures ok { OnOk result ((refusal_of self.old piece ≡ None)
            × (self.new ≡ with_piece self.old piece)) }
        ensures same { IfErr result (λ r. (self.new ≡ self.old) × (r.piece ≡ piece)) }
        ensures why { IfErr result (λ r. IsReason (refusal_of self.old piece) r.why) }
    {
        let run = piece.run() as usize;
        if run >= self.slots.len() {
            return Err(Refused {
                piece,
                why: Why::Stranger,
            });
        }
        self.slots[run].accept(self.alloc, piece)
    }

    /// Returns the runs' items and tails. If a run has no close, the error is the first such run, with the
    /// unchanged collector.
    pub fn finish(self) -> Result<Lists<T, C>, (u32, Self)>
        ensures ok { IfOk result (λ l. self ≡ map closed_run l) }
        ensures err { IfErr result (λ e. (e.1 ≡ self) × (first_open self ≡ Some e.0)) }
    {
        if let Some(run) = open_slot(self.slots.as_slice()) {
            return Err((run, self));
        }
        let Collector {
            alloc: _,
            slots,
            done,
        } = self;
        Ok(Lists::new(unwrap_slots(slots, done)))
    }
}

// The least slot that is open.
fn open_slot<T, C>(slots: &[Slot<T, C>]) -> Option<u32>
    requires { length slots.now < 2 ^ 32 }
    ensures { result ≡ first_open (map held_of slots.now) }
{
    for (i, slot) in slots.iter().enumerate() {
        if let Slot::Open(_) = slot {
            return Some(i as u32);
        }
    }
    None
}

// Moves what closed slots hold into a list that has room for it.
fn unwrap_slots<T: Drop, C: Drop>(
    slots: Vec<Slot<T, C>>,
    mut done: Vec<(Vec<T>, C)>,
) -> Vec<(Vec<T>, C)>
    requires room { (done.items ≡ []) × (length slots.items ≤ vec_capacity done) }
    requires closed { first_open (map held_of slots.items) ≡ None }
    ensures { map held_of slots.items ≡ map closed_run (map whole_of result.items) }
{
    for slot in slots {
        match slot {
            Slot::Closed(items, tail) => done.push_reserved((items, tail)),
            Slot::Open(_) => unreachable!(),
        }
    }
    done
}

//! A run in a collector.
ghost use Rattle.std.specs.Prelude.{◌≡◌, OnOk, IfErr};
ghost use Rattle.sarif_collect.specs.declared.piece.Piece.TheVariants.{Item, Close};
ghost use Rattle.sarif_collect.specs.Collecting.{refusal_at, step_at, IsReason};
ghost use Rattle.sarif_collect.specs.Slot.{held_of};

use crate::numbered::Numbered;
use crate::piece::{Piece, Refused, Why};
use std::alloc::Global;
use std::mem;

/// A run in a collector.
#[derive(Drop)]
pub enum Slot<T, C> {
    /// Its close has not come: the items that came so far, by their numbers.
    Open(Numbered<T>),
    /// Its close has come: its items, in the order of their numbers, and its tail.
    Closed(Vec<T>, C),
}

impl<T: Drop, C: Drop> Slot<T, C> {
    /// Accepts a piece of this run, or returns it with the first reason against it: `AfterClose`, `Double`,
    /// `Short` or `OutOfMemory`, as for [`Collector::accept`](crate::Collector::accept). Then nothing changes.
    pub fn accept(&mut self, alloc: Global, piece: Piece<T, C>) -> Result<(), Refused<T, C>>
        ensures ok { OnOk result ((refusal_at (held_of self.old) piece ≡ None)
            × (held_of self.new ≡ step_at (held_of self.old) piece)) }
        ensures same { IfErr result (λ r. (self.new ≡ self.old) × (r.piece ≡ piece)) }
        ensures why { IfErr result (λ r. IsReason (refusal_at (held_of self.old) piece) r.why) }
    {
        match piece {
            Piece::Item { run, seq, body } => self.add(run, seq, body),
            Piece::Close { run, count, tail } => self.close(alloc, run, count, tail),
        }
    }

    fn add(&mut self, run: u32, seq: u32, body: T) -> Result<(), Refused<T, C>>
        ensures ok { OnOk result ((refusal_at (held_of self.old) (Item run seq body) ≡ None)
            × (held_of self.new ≡ step_at (held_of self.old) (Item run seq body))) }
        ensures same { IfErr result (λ r. (self.new ≡ self.old) × (r.piece ≡ Item run seq body)) }
        ensures why { IfErr result (λ r.
            IsReason (refusal_at (held_of self.old) (Item run seq body)) r.why) }
    {
        let (why, body) = match self {
            Slot::Closed(..) => (Why::AfterClose, body),
            Slot::Open(bodies) => {
                if bodies.contains(seq) {
                    (Why::Double, body)
                } else {
                    match bodies.insert(seq, body) {
                        Ok(()) => return Ok(()),
                        Err(body) => (Why::OutOfMemory, body),
                    }
                }
            }
        };
        Err(Refused {
            piece: Piece::Item { run, seq, body },
            why,
        })
    }

    fn close(&mut self, alloc: Global, run: u32, count: u32, tail: C) -> Result<(), Refused<T, C>>
        ensures ok { OnOk result ((refusal_at (held_of self.old) (Close run count tail) ≡ None)
            × (held_of self.new ≡ step_at (held_of self.old) (Close run count tail))) }
        ensures same { IfErr result (λ r. (self.new ≡ self.old)
            × (r.piece ≡ Close run count tail)) }
        ensures why { IfErr result (λ r.
            IsReason (refusal_at (held_of self.old) (Close run count tail)) r.why) }
    {
        let why = match self {
            Slot::Closed(..) => Why::AfterClose,
            Slot::Open(bodies) => {
                if bodies.is_just(count) {
                    match mem::replace(bodies, Numbered::new(alloc)).into_list() {
                        Ok(items) => {
                            *self = Slot::Closed(items, tail);
                            return Ok(());
                        }
                        Err(back) => {
                            *bodies = back;
                            Why::OutOfMemory
                        }
                    }
                } else {
                    Why::Short
                }
            }
        };
        Err(Refused {
            piece: Piece::Close { run, count, tail },
            why,
        })
    }
}

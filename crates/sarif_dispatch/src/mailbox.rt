//! A bounded mailbox for many senders and one taker.
ghost use Rattle.std.specs.Prelude.{◌≡◌, ◌≤◌, ◌<◌, [], ◌∷◌, ◌++◌, OnOk, IfOk, IfErr, MatchOption};
ghost use Rattle.sarif_dispatch.specs.Ends.{IsPostOf, IsDeskOf, AreNew, number_of, sent_by, taken_by};
ghost use Rattle.sarif_dispatch.specs.Limits.{most_hands, most_room};

mod ends;
mod rule;
mod settling;
mod waiting;

use crate::mailbox::rule::{Delivery, Enlists, Sends, Takes, View};
use crossbeam_queue::RuledArrayQueue;
use crossbeam_utils::sync::EventCount;
pub use ends::{Desk, Post};
pub use settling::Settled;
use std::alloc::{AllocError, Global};
use std::sync::Wait;

pub(crate) type Line<P> = RuledArrayQueue<(u32, P), View<P>, Delivery>;

/// A queue of parcels, each with its sender.
#[derive(Drop)]
pub struct Mailbox<P> {
    pub(crate) line: Line<P>,
    pub(crate) senders: u32,
    // By these sleep the senders that wait for room, and the taker that waits for a parcel.
    room: EventCount,
    parcels: EventCount,
}

/// The mailbox was full. The parcel comes back.
#[derive(Debug, Drop, PartialEq, Eq)]
pub struct Full<P> {
    /// The parcel that wasn't sent.
    pub parcel: P,
}

impl<P: Drop> Mailbox<P> {
    /// Returns a mailbox that holds `room` parcels, 1 to `most_room`, a post for each of `senders` senders, 1 to
    /// `most_hands`, in order, and the receiver's desk. Returns `AllocError` if memory for them runs out.
    pub fn new(
        alloc: Global,
        room: u32,
        senders: u32,
    ) -> Result<(Self, Vec<Post<P>>, Desk<P>), AllocError>
        requires room { (1 ≤ room) × (room ≤ most_room) }
        requires senders { (1 ≤ senders) × (senders ≤ most_hands) }
        ensures { IfOk result (λ m. AreNew room senders m.0 m.1.items m.2) }
    {
        let mut posts = Vec::with_capacity(alloc, senders as usize)?;
        let (line, mut pass) = Line::ruled(alloc, room as usize)?;
        for number in 0..senders {
            posts.push_reserved(Post::new(line.another::<Enlists>(&mut pass), number));
        }
        let mailbox = Mailbox {
            line,
            senders,
            room: EventCount::new(),
            parcels: EventCount::new(),
        };
        Ok((mailbox, posts, Desk::new(pass)))
    }

    /// Adds a parcel to the back, and wakes the receiver if it sleeps. Returns `Full`, with the parcel, only if
    /// the mailbox was full.
    pub fn send<R: Wait>(&self, rt: &R, post: &mut Post<P>, parcel: P) -> Result<(), Full<P>>
        requires { IsPostOf self.now post.old }
        ensures post { IsPostOf self.now post.new × (number_of post.new ≡ number_of post.old) }
        ensures ok { OnOk result (sent_by post.new ≡ sent_by post.old ++ parcel ∷ []) }
        ensures full { IfErr result (λ f. (f.parcel ≡ parcel)
            × (sent_by post.new ≡ sent_by post.old)) }
    {
        match self
            .line
            .push_as::<Sends, R>(rt, &mut post.pass, (post.number, parcel))
        {
            Ok(()) => {
                self.parcels.notify_one();
                Ok(())
            }
            Err((_, parcel)) => Err(Full { parcel }),
        }
    }

    /// Takes the sender and the parcel at the front, and wakes a sender that waits for room. Returns `None` only
    /// if the mailbox was empty.
    pub fn take<R: Wait>(&self, rt: &R, desk: &mut Desk<P>) -> Option<(u32, P)>
        requires { IsDeskOf self.now desk.old }
        ensures desk { IsDeskOf self.now desk.new }
        ensures taken { MatchOption result (taken_by desk.new ≡ taken_by desk.old)
            (λ p. taken_by desk.new ≡ taken_by desk.old ++ p ∷ []) }
    {
        let taken = self.line.pop_as::<Takes, R>(rt, &mut desk.pass);
        if taken.is_some() {
            self.room.notify_one();
        }
        taken
    }
}

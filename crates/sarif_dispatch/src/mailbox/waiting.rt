//! Sending to a full mailbox and receiving from an empty one: the thread sleeps until it is woken. No wake-up is
//! lost. A thread announces that it waits and looks again before it sleeps; a thread that sends or receives then
//! ends an announced wait.
ghost use Rattle.std.specs.Prelude.{◌≡◌, [], ◌∷◌, ◌++◌, OnOk, IfErr, MatchOption};
ghost use Rattle.sarif_dispatch.specs.Ends.{IsPostOf, IsDeskOf, number_of, sent_by, taken_by};

use crate::mailbox::ends::{Desk, Post};
use crate::mailbox::rule::Takes;
use crate::mailbox::{Full, Mailbox};
use crossbeam_utils::Backoff;
use std::sync::Wait;

// How often a call tries before its thread sleeps.
const TRIES: u32 = 4;

impl<P: Drop> Mailbox<P> {
    /// Puts a parcel at the back. The thread sleeps while the mailbox is full.
    pub fn send_on<R: Wait>(&self, rt: &R, post: &mut Post<P>, parcel: P)
        requires { IsPostOf self.now post.old }
        ensures post { IsPostOf self.now post.new × (number_of post.new ≡ number_of post.old) }
        ensures sent { sent_by post.new ≡ sent_by post.old ++ parcel ∷ [] }
    {
        let Err(Full { mut parcel }) = self.send_soon(rt, post, parcel) else {
            return;
        };
        for _ in rt.forever() {
            let key = self.room.prepare_wait();
            match self.send(rt, post, parcel) {
                Ok(()) => return,
                Err(Full { parcel: back }) => parcel = back,
            }
            key.wait(rt);
        }
        unreachable!()
    }

    // Sends, and tries a few times where the mailbox is full.
    fn send_soon<R: Wait>(&self, rt: &R, post: &mut Post<P>, mut parcel: P) -> Result<(), Full<P>>
        requires { IsPostOf self.now post.old }
        ensures post { IsPostOf self.now post.new × (number_of post.new ≡ number_of post.old) }
        ensures ok { OnOk result (sent_by post.new ≡ sent_by post.old ++ parcel ∷ []) }
        ensures full { IfErr result (λ f. (f.parcel ≡ parcel)
            × (sent_by post.new ≡ sent_by post.old)) }
    {
        let backoff = Backoff::new();
        for _ in 0..TRIES {
            match self.send(rt, post, parcel) {
                Ok(()) => return Ok(()),
                Err(Full { parcel: back }) => parcel = back,
            }
            backoff.snooze();
        }
        Err(Full { parcel })
    }

    /// Takes the sender and the parcel at the front. The thread sleeps while the mailbox is empty.
    /// It is for a taker that goes on until no sender has anything left to send: senders that sleep
    /// are woken only once half of the room is free.
    pub fn take_next<R: Wait>(&self, rt: &R, desk: &mut Desk<P>) -> (u32, P)
        requires { IsDeskOf self.now desk.old }
        ensures desk { IsDeskOf self.now desk.new }
        ensures taken { taken_by desk.new ≡ taken_by desk.old ++ result ∷ [] }
    {
        if let Some(parcel) = self.take_soon(rt, desk) {
            return parcel;
        }
        for _ in rt.forever() {
            let key = self.parcels.prepare_wait();
            if let Some(parcel) = self.take_one(rt, desk) {
                return parcel;
            }
            key.wait(rt);
        }
        unreachable!()
    }

    // Takes, and tries a few times where the mailbox is empty.
    fn take_soon<R: Wait>(&self, rt: &R, desk: &mut Desk<P>) -> Option<(u32, P)>
        requires { IsDeskOf self.now desk.old }
        ensures desk { IsDeskOf self.now desk.new }
        ensures taken { MatchOption result (taken_by desk.new ≡ taken_by desk.old)
            (λ p. taken_by desk.new ≡ taken_by desk.old ++ p ∷ []) }
    {
        let backoff = Backoff::new();
        for _ in 0..TRIES {
            if let Some(parcel) = self.take_one(rt, desk) {
                return Some(parcel);
            }
            backoff.snooze();
        }
        None
    }

    // Receives, and wakes a sender when half of the room is free: a sender that is woken for each parcel would
    // soon sleep again. A thread that finds the mailbox empty took its last parcel before, and woke a sender then.
    fn take_one<R: Wait>(&self, rt: &R, desk: &mut Desk<P>) -> Option<(u32, P)>
        requires { IsDeskOf self.now desk.old }
        ensures desk { IsDeskOf self.now desk.new }
        ensures taken { MatchOption result (taken_by desk.new ≡ taken_by desk.old)
            (λ p. taken_by desk.new ≡ taken_by desk.old ++ p ∷ []) }
    {
        let taken = self.line.pop_as::<Takes, R>(rt, &mut desk.pass);
        if taken.is_some() {
            self.wake_sender(rt, desk);
        }
        taken
    }

    fn wake_sender<R: Wait>(&self, rt: &R, desk: &mut Desk<P>)
        requires { IsDeskOf self.now desk.old }
        ensures desk { IsDeskOf self.now desk.new }
        ensures same { taken_by desk.new ≡ taken_by desk.old }
    {
        let waiting = self.line.len_as::<Takes, R>(rt, &mut desk.pass);
        if waiting <= self.line.capacity() / 2 {
            self.room.notify_one();
        }
    }
}

//! The mailbox's rule, and what each step shows.
ghost use Rattle.std.specs.Prelude.{◌≡◌, ◌+◌, [], ◌∷◌, ◌++◌};
ghost use Rattle.sarif_dispatch.specs.declared.mailbox.rule.View.TheVariants.{Taker, Sender, Gone};
ghost use Rattle.sarif_dispatch.specs.Delivery.{Delivers, Settles, taken_in, made_in, settled_in};
ghost use Rattle.sarif_dispatch.specs.Delivery.{number_in, sent_in};

use crossbeam_queue::protocol::{Join, Lesson, Outcome, Protocol, Split};
use std::collections::LinkedList;

/// What an end of the mailbox knows. No value of it is made.
pub enum View<P> {
    /// What was received, how many posts were made, and what the senders of returned posts sent.
    Taker {
        taken: LinkedList<(u32, P)>,
        made: u32,
        settled: LinkedList<(u32, LinkedList<P>)>,
    },
    /// The sender's number, and what it sent.
    Sender {
        number: u32,
        sent: LinkedList<P>,
    },
    /// The end of a post that came back.
    Gone,
}

/// The invariant of the mailbox and its ends: what each sender sent is what was received from it, followed by what
/// the mailbox holds from it.
pub struct Delivery;

impl<P> Protocol<(u32, P), View<P>> for Delivery {
    ghost holds = { Delivers };

    ghost first = { Taker [] 0 [] };
}

/// One more post.
pub struct Enlists;

impl<P> Split<View<P>> for Enlists {
    ghost left = { λ v. Taker (taken_in v) (made_in v + 1) (settled_in v) };

    ghost right = { λ v. Sender (made_in v) [] };
}

/// A post comes back.
pub struct Returns;

impl<P> Join<View<P>> for Returns {
    ghost both = { λ v w. Taker (taken_in v) (made_in v)
        (settled_in v ++ (number_in w, sent_in w) ∷ []) };

    ghost spent = { Gone };
}

/// A parcel was sent.
pub struct Sends;

impl<P> Outcome<(u32, P), View<P>> for Sends {
    ghost then = { λ v x w. w ≡ Sender (number_in v) (sent_in v ++ x.1 ∷ []) };
}

impl<P> Lesson<(u32, P), View<P>> for Sends {
    ghost fact = { λ v items. Unit {0} };
}

/// A parcel was received. The desk knows which of the parcels in the mailbox each returned sender sent.
pub struct Takes;

impl<P> Outcome<(u32, P), View<P>> for Takes {
    ghost then = { λ v x w. w ≡ Taker (taken_in v ++ x ∷ []) (made_in v) (settled_in v) };
}

impl<P> Lesson<(u32, P), View<P>> for Takes {
    ghost fact = { λ v items. Settles (taken_in v) (made_in v) (settled_in v) items };
}

//! The ends of a mailbox.
ghost use Rattle.std.specs.Prelude.{◌≡◌, []};
ghost use Rattle.crossbeam_queue.specs.Passes.{view};
ghost use Rattle.sarif_dispatch.specs.declared.mailbox.rule.View.TheVariants.{Taker, Sender};
ghost use Rattle.sarif_dispatch.specs.Delivery.{taken_in, made_in, settled_in, sent_in};

use crate::mailbox::rule::View;
use crossbeam_queue::Pass;

/// A sender's end. It shows the sender's number and the list that it sent.
#[derive(Drop)]
pub struct Post<P> {
    pub(crate) pass: Pass<(u32, P), View<P>>,
    /// The number of its sender.
    pub number: u32,
    pub(crate) ghost own: { view pass ≡ Sender number (sent_in (view pass)) },
    pub(crate) ghost free: { pass.me.1 ≡ [] },
}

/// The taker's end. It shows the list that it took, of senders and parcels.
#[derive(Drop)]
pub struct Desk<P> {
    pub(crate) pass: Pass<(u32, P), View<P>>,
    pub(crate) ghost own: { view pass
        ≡ Taker (taken_in (view pass)) (made_in (view pass)) (settled_in (view pass)) },
    pub(crate) ghost free: { pass.me.1 ≡ [] },
}

impl<P> Post<P> {
    pub(super) fn new(pass: Pass<(u32, P), View<P>>, number: u32) -> Self
        requires { (view pass ≡ Sender number []) × (pass.me.1 ≡ []) }
        ensures { (result.pass ≡ pass) × (result.number ≡ number) }
    {
        Post { pass, number }
    }
}

impl<P> Desk<P> {
    pub(super) fn new(pass: Pass<(u32, P), View<P>>) -> Self
        requires own { view pass
            ≡ Taker (taken_in (view pass)) (made_in (view pass)) (settled_in (view pass)) }
        requires free { pass.me.1 ≡ [] }
        ensures { result.pass ≡ pass }
    {
        Desk { pass }
    }
}

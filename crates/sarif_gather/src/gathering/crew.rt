//! What the threads of a gathering share, and what they begin with.
ghost use Rattle.std.specs.Prelude.{◌≡◌};
ghost use Rattle.sarif_dispatch.specs.Hands.{runs_dealt};

use crate::work::Work;
use sarif_collect::{Collector, Parcel};
use sarif_dispatch::{Deal, Desk, Hand, Mailbox, Post};

/// What all workers share: the work, who looks on, the deal of the work's runs, and the mailbox
/// that takes their parcels.
pub struct Workplace<'a, W: Work, G> {
    /// The work that is gathered.
    pub work: &'a W,
    /// The observer.
    pub observer: &'a G,
    /// The deal of the work's runs.
    pub deal: &'a Deal,
    /// The mailbox from the workers to the calling thread.
    pub mailbox: &'a Mailbox<Parcel<W::Item, W::Tail>>,
    pub ghost dealt: { runs_dealt deal.now ≡ W.run_count work.now },
}

impl<'a, W: Work, G> Drop for Workplace<'a, W, G> {
    fn drop(self) {
        let Workplace {
            work: _,
            observer: _,
            deal: _,
            mailbox: _,
        } = self;
    }
}

/// What the threads begin with: the workers' posts and hands, and the taker's desk and collector.
#[derive(Drop)]
pub struct Crew<T, C> {
    /// A post for each worker, in order.
    pub posts: Vec<Post<Parcel<T, C>>>,
    /// A hand for each worker.
    pub hands: Vec<Hand>,
    /// The desk of the calling thread.
    pub desk: Desk<Parcel<T, C>>,
    /// The collector of what it takes.
    pub collector: Collector<T, C>,
}

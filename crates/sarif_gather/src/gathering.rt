//! Many workers, one collector.
ghost use Rattle.std.specs.Prelude.{◌≡◌, ◌≤◌, ◌<◌, ℕ, [], Some, slice_get, map, vec_len};
ghost use Rattle.std.specs.Prelude.{IfOk, IfSome};
ghost use Rattle.std.specs.List.{list_any};
ghost use Rattle.sarif_gather.specs.Internal.Begun.{AreNewcomers};
ghost use Rattle.sarif_dispatch.specs.Ends.{IsPostOf, IsNewPost, number_of, sent_by};
ghost use Rattle.sarif_dispatch.specs.Hands.{IsHandOf, drawn_by};
ghost use Rattle.sarif_gather.specs.Internal.Served.{IsServed};
ghost use Rattle.sarif_gather.specs.Internal.Gathered.{IsGathered};
ghost use Rattle.sarif_collect.specs.Pieces.{lists_of};
ghost use Rattle.sarif_dispatch.specs.Limits.{most_hands, most_room};

mod crew;
mod receiving;
mod worker;

use crate::gathering::crew::{Crew, Workplace};
use crate::gathering::receiving::receive;
use crate::gathering::worker::{Back, serve};
use crate::work::{Gate, Work};
use sarif_collect::{Collector, Lists, Parcel};
use sarif_dispatch::{Deal, Desk, Hand, Mailbox, Post};
use std::alloc::{AllocError, Global};
use std::sync::Wait;
use std::thread;
use std::thread::{Promise, PromisedHandle, Scope, Threads};

/// Why a work wasn't gathered.
#[derive(Clone, Copy, Debug, PartialEq, Eq)]
pub enum GatherFault {
    /// A thread couldn't be started.
    NoWorker,
    /// There was no memory.
    OutOfMemory,
}

impl From<AllocError> for GatherFault {
    ghost use Rattle.sarif_gather.specs.declared.gathering.GatherFault.TheVariants.{OutOfMemory};

    ghost from_gives = { λ _ fault. fault ≡ OutOfMemory };

    fn from(_fault: AllocError) -> Self {
        GatherFault::OutOfMemory
    }
}

/// What a started worker owes: the service of this worker.
struct Service<'a, W: Work, G> {
    place: &'a Workplace<'a, W, G>,
    worker: u32,
}

impl<'a, W: Work, G> Drop for Service<'a, W, G> {
    fn drop(self) {
        let Service {
            place: _,
            worker: _,
        } = self;
    }
}

impl<'a, W: Work, G> Promise<Back<Parcel<W::Item, W::Tail>>> for Service<'a, W, G> {
    ghost kept_by = { λ p back. let place = p.place.now in let work = place.work.now in
        IsServed (W.count work) (W.item work) (W.end work)
        place.mailbox.now place.deal.now p.worker back };
}

// Starts one worker. None where no thread could be started.
fn start_one<'s, E, W: Work + Sync, G: Gate + Sync, R: Threads + Wait + Sync>(
    scope: &Scope<'s, E>,
    rt: &'s R,
    alloc: Global,
    place: &'s Workplace<'s, W, G>,
    post: Post<Parcel<W::Item, W::Tail>>,
    hand: Hand,
) -> Option<PromisedHandle<Back<Parcel<W::Item, W::Tail>>, Service<'s, W, G>>>
    requires post { IsPostOf place.now.mailbox.now post × (sent_by post ≡ []) }
    requires hand { IsHandOf place.now.deal.now hand × (drawn_by hand ≡ []) }
    ensures { IfSome result (λ h. (h.promise.place.now ≡ place.now)
        × (h.promise.worker ≡ number_of post)) }
{
    let worker = post.number;
    let service = Service { place, worker };
    let started = scope.spawn_with(
        service,
        move || -> Back<Parcel<W::Item, W::Tail>>
            requires post { IsPostOf place.now.mailbox.now post × (sent_by post ≡ []) }
            requires hand { IsHandOf place.now.deal.now hand × (drawn_by hand ≡ []) }
            ensures { let work = place.entry.now.work.now in
                IsServed (W.count work) (W.item work) (W.end work)
                place.entry.now.mailbox.now place.entry.now.deal.now (number_of post) result }
        { serve(rt, alloc, place, post, hand) },
    );
    started.ok()
}

// Starts a worker for each post. It stops where no thread could be started.
fn start_all<'s, E, W: Work + Sync, G: Gate + Sync, R: Threads + Wait + Sync>(
    scope: &Scope<'s, E>,
    rt: &'s R,
    alloc: Global,
    place: &'s Workplace<'s, W, G>,
    posts: Vec<Post<Parcel<W::Item, W::Tail>>>,
    mut hands: Vec<Hand>,
) -> Result<Vec<PromisedHandle<Back<Parcel<W::Item, W::Tail>>, Service<'s, W, G>>>, AllocError>
    requires posts { (i : ℕ) (post : _) → slice_get posts.items i ≡ Some post
        → IsNewPost place.now.mailbox.now i post }
    requires hands { (i : ℕ) (hand : _) → slice_get hands.items i ≡ Some hand
        → IsHandOf place.now.deal.now hand × (drawn_by hand ≡ []) }
    requires count { vec_len hands ≡ vec_len posts }
    ensures each { IfOk result (λ v. (k : ℕ) (h : _) → slice_get v.items k ≡ Some h
        → (h.promise.place.now ≡ place.now) × (h.promise.worker ≡ k)) }
{
    let mut handles = Vec::with_capacity(alloc, posts.len())?;
    for post in posts {
        let Some(hand) = hands.pop() else {
            unreachable!()
        };
        let started = start_one(scope, rt, alloc, place, post, hand);
        let Some(handle) = started else {
            break;
        };
        handles.push_reserved(handle);
    }
    Ok(handles)
}

// What the calling thread has once all workers are joined.
#[derive(Drop)]
struct Gathered<T, C> {
    desk: Desk<Parcel<T, C>>,
    collector: Collector<T, C>,
    backs: Vec<Back<Parcel<T, C>>>,
}

// Whether a worker found no memory for all of its work.
fn is_short<P>(backs: &[Back<P>]) -> bool
    ensures { result ≡ list_any (λ back. back.short) backs.now }
{
    backs.iter().any(|back| back.short)
}

// Starts the workers, takes what they send, and joins them.
fn gather_in<'s, E, W: Work + Sync, G: Gate + Sync, R: Threads + Wait + Sync>(
    scope: &Scope<'s, E>,
    rt: &'s R,
    alloc: Global,
    place: &'s Workplace<'s, W, G>,
    crew: Crew<W::Item, W::Tail>,
) -> Result<Gathered<W::Item, W::Tail>, GatherFault>
    requires { AreNewcomers place.now.mailbox.now place.now.deal.now crew }
    ensures { let work = place.now.work.now in
        IfOk result (IsGathered (W.count work) (W.item work) (W.end work)
        place.now.mailbox.now place.now.deal.now crew.collector (vec_len crew.posts)) }
{
    let Crew {
        posts,
        hands,
        mut desk,
        mut collector,
    } = crew;
    let workers = posts.len();
    let handles = start_all(scope, rt, alloc, place, posts, hands)?;
    let started = handles.len();
    let (mailbox, observer) = (place.mailbox, place.observer);
    let is_whole = receive(rt, mailbox, &mut desk, started, &mut collector, observer);
    let Ok(backs) = thread::join_promised(rt, handles) else {
        return Err(GatherFault::OutOfMemory);
    };
    if started != workers {
        return Err(GatherFault::NoWorker);
    }
    if !is_whole || is_short(backs.as_slice()) {
        return Err(GatherFault::OutOfMemory);
    }
    Ok(Gathered {
        desk,
        collector,
        backs,
    })
}

// Gathers in a scope, which ends once each thread has ended.
fn gather_scoped<W: Work + Sync, G: Gate + Sync, R: Threads + Wait + Sync>(
    rt: &R,
    alloc: Global,
    place: &Workplace<W, G>,
    crew: Crew<W::Item, W::Tail>,
) -> Result<Gathered<W::Item, W::Tail>, GatherFault>
    requires { AreNewcomers place.now.mailbox.now place.now.deal.now crew }
    ensures { let work = place.now.work.now in
        IfOk result (IsGathered (W.count work) (W.item work) (W.end work)
        place.now.mailbox.now place.now.deal.now crew.collector (vec_len crew.posts)) }
{
    thread::scope(
        thread::scope_env(),
        rt,
        move |scope| -> Result<Gathered<W::Item, W::Tail>, GatherFault>
            requires { AreNewcomers place.now.mailbox.now place.now.deal.now crew }
            ensures { let work = place.entry.now.work.now in
                IfOk result (IsGathered (W.count work) (W.item work) (W.end work)
                place.entry.now.mailbox.now place.entry.now.deal.now
                crew.collector (vec_len crew.posts)) }
        { gather_in(scope, rt, alloc, place, crew) },
    )
}

// The posts and the hands, apart.
fn split_backs<P: Drop>(
    alloc: Global,
    backs: Vec<Back<P>>,
) -> Result<(Vec<Post<P>>, Vec<Hand>), AllocError>
    ensures { IfOk result (λ r. (r.0.items ≡ map (λ back. back.post) backs.items)
        × (r.1.items ≡ map (λ back. back.hand) backs.items)) }
{
    let mut posts = Vec::with_capacity(alloc, backs.len())?;
    let mut hands = Vec::with_capacity(alloc, backs.len())?;
    for back in backs {
        let Back {
            post,
            hand,
            short: _,
        } = back;
        posts.push_reserved(post);
        hands.push_reserved(hand);
    }
    Ok((posts, hands))
}

/// Makes all runs of a work in `workers` threads, 1 to `most_hands`, over a mailbox with room for `room` parcels,
/// 1 to `most_room`, and returns their items in order. `observer` sees each item. Returns `NoWorker` if a thread cannot be
/// started; `OutOfMemory` if memory runs out, including the memory of a worker for its items.
pub fn gather<W: Work + Sync, G: Gate + Sync, R: Threads + Wait + Sync>(
    rt: &R,
    alloc: Global,
    work: &W,
    workers: u32,
    room: u32,
    observer: &G,
) -> Result<Lists<W::Item, W::Tail>, GatherFault>
    requires workers { (1 ≤ workers) × (workers ≤ most_hands) }
    requires room { (1 ≤ room) × (room ≤ most_room) }
    ensures { IfOk result (λ lists. lists ≡ lists_of (W.count work.now) (W.item work.now)
        (W.end work.now) (W.run_count work.now)) }
{
    let runs = work.runs();
    let collector = Collector::new(alloc, runs)?;
    let (deal, hands) = Deal::new(alloc, runs, workers)?;
    let (mailbox, posts, desk) = Mailbox::new(alloc, room, workers)?;
    let place = Workplace {
        work,
        observer,
        deal: &deal,
        mailbox: &mailbox,
    };
    let crew = Crew {
        posts,
        hands,
        desk,
        collector,
    };
    let gathered = gather_scoped(rt, alloc, &place, crew)?;
    drop(place);
    let Gathered {
        desk,
        collector,
        backs,
    } = gathered;
    let (posts, hands) = split_backs(alloc, backs)?;
    let Ok(_settled) = mailbox.settle(rt, alloc, desk, posts) else {
        return Err(GatherFault::OutOfMemory);
    };
    deal.settle(hands);
    let Ok(lists) = collector.finish() else {
        unreachable!()
    };
    Ok(lists)
}

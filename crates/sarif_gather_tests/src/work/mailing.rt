//! The mailbox.
ghost use Rattle.std.specs.Prelude.{◌≡◌, ◌≤◌, ◌<◌, ℕ, length, vec_len, All, slice_index_or};
ghost use Rattle.sarif_dispatch.specs.Ends.{IsPostOf, IsDeskOf, AreAllPosts, number_of};

use sarif_collect::{Parcel, Piece};
use sarif_dispatch::{Desk, Full, Mailbox, Post};
use std::sync::Wait;
use std::test::Fail;
use std::thread;
use std::thread::Threads;

type Sent = Parcel<u8, u8>;

#[test]
fn full_and_none_come_from_a_full_and_an_empty_mailbox(rt: HostRuntime) -> Result<(), Fail> {
    let (mailbox, mut posts, mut desk) = Mailbox::<Sent>::new(rt.alloc(), 1, 2)?;
    let (Some(mut second), Some(mut first)) = (posts.pop(), posts.pop()) else {
        panic!(rt; "there are two posts")
    };
    assert!(rt;
        mailbox
            .send(&rt, &mut first, Parcel::End { short: false })
            .is_ok()
    );
    let refused = mailbox.send(&rt, &mut second, Parcel::End { short: true });
    assert_eq!(rt;
        refused,
        Err(Full {
            parcel: Parcel::End { short: true }
        })
    );
    assert_eq!(rt;
        mailbox.take(&rt, &mut desk),
        Some((0, Parcel::End { short: false }))
    );
    assert_eq!(rt; mailbox.take(&rt, &mut desk), None);
    assert!(rt;
        mailbox
            .send(&rt, &mut second, Parcel::End { short: true })
            .is_ok()
    );
    let back = vec![in rt.alloc(); first, second]?;
    let Ok(settled) = mailbox.settle(&rt, rt.alloc(), desk, back) else {
        panic!(rt; "there is memory for one parcel")
    };
    assert_eq!(rt;
        settled.left.as_slice(),
        [(1, Parcel::End { short: true })].as_slice()
    );
    Ok(())
}

#[test]
fn settle_gives_what_is_left_front_first(rt: HostRuntime) -> Result<(), Fail> {
    let (mailbox, mut posts, mut desk) = Mailbox::<Sent>::new(rt.alloc(), 4, 2)?;
    let (Some(mut second), Some(mut first)) = (posts.pop(), posts.pop()) else {
        panic!(rt; "there are two posts")
    };
    mailbox.send_on(&rt, &mut first, carry(0, 10));
    mailbox.send_on(&rt, &mut second, carry(1, 20));
    mailbox.send_on(&rt, &mut first, carry(0, 11));
    assert_eq!(rt; mailbox.take_next(&rt, &mut desk), (0, carry(0, 10)));
    mailbox.send_on(&rt, &mut second, carry(1, 21));
    mailbox.send_on(&rt, &mut first, Parcel::End { short: false });
    let back = vec![in rt.alloc(); first, second]?;
    let Ok(settled) = mailbox.settle(&rt, rt.alloc(), desk, back) else {
        panic!(rt; "there is memory for four parcels")
    };
    assert_eq!(rt;
        settled.left.as_slice(),
        [
            (1, carry(1, 20)),
            (0, carry(0, 11)),
            (1, carry(1, 21)),
            (0, Parcel::End { short: false }),
        ]
        .as_slice()
    );
    Ok(())
}

// A parcel with item 0 of a run.
fn carry(run: u32, body: u8) -> Sent {
    Parcel::Carry(Piece::Item { run, seq: 0, body })
}

// How many parcels each sender sends.
const PARCELS: u32 = 1000;

/// For each sender, how many parcels came in the order in which they were sent, and overall, how many came out of
/// order.
#[derive(Clone, Copy)]
struct ArrivalCounts {
    in_order: [u32; 4],
    strays: u32,
}

impl ArrivalCounts {
    fn note(&mut self, sender: u32, parcel: u32) {
        match self.in_order.get_mut(sender as usize) {
            Some(next) if *next == parcel => *next = next.wrapping_add(1),
            _ => self.strays = self.strays.wrapping_add(1),
        }
    }
}

// Sends numbered parcels.
fn send_numbered<R: Wait>(rt: &R, mailbox: &Mailbox<u32>, post: &mut Post<u32>)
    requires { IsPostOf mailbox.now post.old }
    ensures { IsPostOf mailbox.now post.new × (number_of post.new ≡ number_of post.old) }
{
    for number in 0..PARCELS {
        mailbox.send_on(rt, post, number);
    }
}

// Each post sends numbered parcels, in a separate thread.
fn send_each<R: Threads + Wait + Sync>(rt: &R, mailbox: &Mailbox<u32>, posts: &mut [Post<u32>])
    requires { All (IsPostOf mailbox.now) posts.old }
    ensures len { length posts.new ≡ length posts.old }
    ensures each { (i : ℕ) (d : _) → i < length posts.old
        → IsPostOf mailbox.now (slice_index_or posts.new i d)
        × (number_of (slice_index_or posts.new i d) ≡ number_of (slice_index_or posts.old i d)) }
{
    thread::for_each_mut(rt, posts, 4, &|_, post| send_numbered(rt, mailbox, post));
}

fn send_all<R: Threads + Wait + Sync>(
    rt: &R,
    mailbox: &Mailbox<u32>,
    mut posts: Vec<Post<u32>>,
) -> Vec<Post<u32>>
    requires { AreAllPosts mailbox.now posts.items }
    ensures { AreAllPosts mailbox.now result.items }
{
    send_each(rt, mailbox, posts.as_mut_slice());
    posts
}

// Takes all parcels but the last three.
fn take_most<R: Wait>(
    rt: &R,
    mailbox: &Mailbox<u32>,
    mut desk: Desk<u32>,
) -> (Desk<u32>, ArrivalCounts)
    requires { IsDeskOf mailbox.now desk }
    ensures { IsDeskOf mailbox.now result.0 }
{
    let mut tally = ArrivalCounts {
        in_order: [0; 4],
        strays: 0,
    };
    for _ in 0..4 * PARCELS - 3 {
        let (sender, parcel) = take_next(rt, mailbox, &mut desk);
        tally.note(sender, parcel);
    }
    (desk, tally)
}

// Tries until there is a parcel. The taker stops before the senders do, so it wakes them at each.
fn take_next<R: Wait>(rt: &R, mailbox: &Mailbox<u32>, desk: &mut Desk<u32>) -> (u32, u32)
    requires { IsDeskOf mailbox.now desk.old }
    ensures { IsDeskOf mailbox.now desk.new }
{
    for _ in rt.forever() {
        if let Some(parcel) = mailbox.take(rt, desk) {
            return parcel;
        }
        thread::yield_now();
    }
    unreachable!()
}

#[test]
fn what_four_senders_sent_arrives_whole_and_in_order(rt: HostRuntime) -> Result<(), Fail> {
    let (mailbox, posts, desk) = Mailbox::<u32>::new(rt.alloc(), 3, 4)?;
    let shared = &mailbox;
    let threads = &rt;
    let (posts, (desk, taken)) = thread::join(
        &rt,
        move || -> Vec<Post<u32>>
            requires { AreAllPosts shared.now posts.items }
            ensures { AreAllPosts shared.entry.now result.items }
        { send_all(threads, shared, posts) },
        move || -> (Desk<u32>, ArrivalCounts)
            requires { IsDeskOf shared.now desk }
            ensures { IsDeskOf shared.entry.now result.0 }
        { take_most(threads, shared, desk) },
    );
    let Ok(settled) = mailbox.settle(&rt, rt.alloc(), desk, posts) else {
        panic!(rt; "there is memory for three parcels")
    };
    assert_eq!(rt; settled.left.len(), 3);
    let mut tally = taken;
    for (sender, parcel) in settled.left.as_slice() {
        tally.note(*sender, *parcel);
    }
    assert_eq!(rt; tally.in_order, [PARCELS; 4]);
    assert_eq!(rt; tally.strays, 0);
    Ok(())
}

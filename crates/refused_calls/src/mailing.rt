//! The mailbox.
ghost use Rattle.sarif_dispatch.specs.Ends.{IsDeskOf, AreAllPosts};

use sarif_dispatch::{Desk, Mailbox, Post};
use std::alloc::{AllocError, Global};
use std::sync::Wait;

/// What is left in a mailbox of two senders, which is settled once more if memory ran out.
pub fn settle<R: Wait>(rt: &R, alloc: Global) -> Result<String, AllocError> {
    let (mailbox, mut posts, mut desk) = Mailbox::<u8>::new(alloc, 4, 2)?;
    let (Some(mut second), Some(mut first)) = (posts.pop(), posts.pop()) else {
        return String::from_str(alloc, "no two posts");
    };
    mailbox.send_on(rt, &mut first, 10);
    mailbox.send_on(rt, &mut second, 20);
    mailbox.send_on(rt, &mut first, 11);
    let (sender, parcel) = mailbox.take_next(rt, &mut desk);
    mailbox.send_on(rt, &mut second, 21);
    mailbox.send_on(rt, &mut first, 12);
    let posts = vec![in alloc; first, second]?;
    let (left, note) = settle_twice(rt, alloc, mailbox, desk, posts)?;
    format!(in alloc; "taken {parcel} of {sender}, left {left:?}{note}")
}

// What is left, and a note where the mailbox had to be settled twice.
fn settle_twice<R: Wait>(
    rt: &R,
    alloc: Global,
    mailbox: Mailbox<u8>,
    desk: Desk<u8>,
    posts: Vec<Post<u8>>,
) -> Result<(Vec<(u32, u8)>, &'static str), AllocError>
    requires desk { IsDeskOf mailbox desk }
    requires posts { AreAllPosts mailbox posts.items }
{
    let (mailbox, desk, posts) = match mailbox.settle(rt, alloc, desk, posts) {
        Ok(settled) => return Ok((settled.left, ", asked once")),
        Err(back) => back,
    };
    match mailbox.settle(rt, alloc, desk, posts) {
        Ok(settled) => Ok((settled.left, ", asked again")),
        Err(_) => Err(AllocError),
    }
}

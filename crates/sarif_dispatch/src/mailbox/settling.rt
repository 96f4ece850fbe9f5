//! The end of a mailbox.
ghost use Rattle.std.specs.Prelude.{◌≡◌, [], ◌++◌, map, Some, slice_get, IfOk, IfErr};
ghost use Rattle.crossbeam_queue.specs.Passes.{view, IsPassOf};
ghost use Rattle.sarif_dispatch.specs.declared.mailbox.rule.View.TheVariants.{Taker};
ghost use Rattle.sarif_dispatch.specs.Delivery.{taken_in, made_in};
ghost use Rattle.sarif_dispatch.specs.Ends.{IsPostOf, IsDeskOf, AreAllPosts, AreWhole};
ghost use Rattle.sarif_dispatch.specs.Ends.{taken_by, returned};

use crate::mailbox::ends::{Desk, Post};
use crate::mailbox::rule::{Returns, Takes, View};
use crate::mailbox::{Line, Mailbox};
use crossbeam_queue::Pass;
use std::alloc::Global;
use std::sync::Wait;

/// What was in the mailbox at the end, front first, each parcel with its sender.
#[derive(Drop)]
pub struct Settled<P> {
    /// The parcels, each with the number of its sender.
    pub left: Vec<(u32, P)>,
}

impl<P: Drop> Mailbox<P> {
    /// Ends the mailbox: what was received, followed by what is left, is what each sender sent. If memory for what
    /// is left runs out, the mailbox, the desk and the posts are returned unchanged.
    pub fn settle<R: Wait>(
        self,
        rt: &R,
        alloc: Global,
        desk: Desk<P>,
        posts: Vec<Post<P>>,
    ) -> Result<Settled<P>, (Self, Desk<P>, Vec<Post<P>>)>
        requires desk { IsDeskOf self desk }
        requires posts { AreAllPosts self posts.items }
        ensures whole { IfOk result (λ s.
            AreWhole self posts.items (taken_by desk ++ s.left.items)) }
        ensures back { IfErr result (λ e. (e.0 ≡ self) × (e.1 ≡ desk) × (e.2 ≡ posts)) }
    {
        let Ok(mut left) = Vec::with_capacity(alloc, self.line.capacity()) else {
            return Err((self, desk, posts));
        };
        let Desk { mut pass } = desk;
        take_back(&self.line, &mut pass, posts);
        let count = self.line.len_as::<Takes, R>(rt, &mut pass);
        for _ in 0..count {
            let Some(parcel) = self.line.pop_as::<Takes, R>(rt, &mut pass) else {
                unreachable!()
            };
            left.push_reserved(parcel);
        }
        self.line.learn_as::<Takes>(&mut pass);
        Ok(Settled { left })
    }
}

// The taker takes in what each post sent.
fn take_back<P: Drop>(line: &Line<P>, pass: &mut Pass<(u32, P), View<P>>, posts: Vec<Post<P>>)
    requires pass { IsPassOf line.now pass.old }
    requires view { view pass.old ≡ Taker (taken_in (view pass.old)) (made_in (view pass.old)) [] }
    requires posts { (i : _) (post : _) → slice_get posts.items i ≡ Some post
        → IsPassOf line.now post.pass }
    ensures pass { IsPassOf line.now pass.new }
    ensures view { view pass.new
        ≡ Taker (taken_in (view pass.old)) (made_in (view pass.old)) (map returned posts.items) }
{
    for post in posts {
        let Post {
            pass: theirs,
            number: _,
        } = post;
        line.absorb::<Returns>(pass, theirs);
    }
}

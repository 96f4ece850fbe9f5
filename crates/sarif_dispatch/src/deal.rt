//! A deal: runs drawn by hands, each run once.
ghost use Rattle.std.specs.Prelude.{◌≡◌, ◌≤◌, ◌<◌, ℕ, true, [], ◌∷◌, ◌++◌, Some, slice_get};
ghost use Rattle.std.specs.Prelude.{IfOk, IfSome, IfNone, IsNone};
ghost use Rattle.sarif_dispatch.specs.Claims.{times, total, once_below};
ghost use Rattle.sarif_dispatch.specs.Hands.{IsSeatOf, IsHandOf, AreNewHands, AreAllHands};
ghost use Rattle.sarif_dispatch.specs.Hands.{drawn_by, runs_dealt, is_marked, joined};
ghost use Rattle.sarif_dispatch.specs.Limits.{most_hands, most_runs};

mod hand;
mod rule;
mod state;

use crate::deal::rule::{Draws, HandView, Joins, Look, Shares, Terms};
use crate::deal::state::Claims;
use atomic_table::Seat;
pub use hand::Hand;
pub use state::Deal;
use std::alloc::{AllocError, Global};

impl Deal {
    /// Returns a deal of `runs` runs, at most `most_runs`, and all its hands: `hands` of them, 1 to `most_hands`.
    /// Returns `AllocError` if memory for them runs out.
    pub fn new(alloc: Global, runs: u32, hands: u32) -> Result<(Self, Vec<Hand>), AllocError>
        requires runs { runs ≤ most_runs }
        requires hands { (1 ≤ hands) × (hands ≤ most_hands) }
        ensures { IfOk result (λ d. AreNewHands runs hands d.0 d.1.items) }
    {
        let mut all = Vec::with_capacity(alloc, hands as usize)?;
        let (claims, mut first) = Claims::of_words(alloc, &[0], &Terms { runs, hands })?;
        for _ in 1..hands {
            all.push_reserved(Hand::new(claims.shared.split_seat::<Shares>(&mut first)));
        }
        all.push_reserved(Hand::new(first));
        Ok((Deal { claims, runs }, all))
    }

    /// The next run, by one addition. None where no run is left, and ever after, without a step.
    pub fn draw(&self, hand: &mut Hand) -> Option<u32>
        requires { IsHandOf self.now hand.old }
        ensures hand { IsHandOf self.now hand.new }
        ensures some { IfSome result (λ run. (run < runs_dealt self.now)
            × (drawn_by hand.new ≡ drawn_by hand.old ++ run ∷ [])
            × (is_marked hand.new ≡ is_marked hand.old)) }
        ensures none { IfNone result ((drawn_by hand.new ≡ drawn_by hand.old)
            × (is_marked hand.new ≡ true)) }
        ensures marked { is_marked hand.old ≡ true → IsNone result }
    {
        if hand.spent {
            return None;
        }
        let found = self.claims.shared.fetch_add::<Draws>(&mut hand.seat, 0, 1);
        if found < self.runs as u64 {
            return Some(found as u32);
        }
        hand.spent = true;
        None
    }

    /// How many runs were drawn. These are the first ones, each drawn once, by one hand.
    pub fn settle(self, mut hands: Vec<Hand>) -> u32
        requires { AreAllHands self hands.items }
        ensures bound { result ≤ runs_dealt self }
        ensures drawn { (run : ℕ)
            → total (λ h. times run (drawn_by h)) hands.items ≡ once_below run result }
        ensures marked { (i : ℕ) (hand : _) → slice_get hands.items i ≡ Some hand
            → is_marked hand ≡ true → result ≡ runs_dealt self }
    {
        let Some(last) = hands.pop() else {
            unreachable!()
        };
        let Hand {
            seat: mut all,
            spent: _,
        } = last;
        take_back(&self.claims, &mut all, hands);
        let word = self.claims.shared.load::<Look>(&mut all, 0);
        word.min(self.runs as u64) as u32
    }
}

// One hand takes in what the others know.
fn take_back(claims: &Claims, all: &mut Seat<(), HandView>, hands: Vec<Hand>)
    requires free { (all.old.me.1 ≡ []) × (0 < all.old.me.0.parts)
        × (0 < claims.now.shared.table_id.words) }
    requires all { IsSeatOf claims.now all.old }
    requires hands { (i : ℕ) (hand : _) → slice_get hands.items i ≡ Some hand
        → IsSeatOf claims.now hand.seat }
    ensures all { IsSeatOf claims.now all.new × (all.new.me.1 ≡ []) }
    ensures view { all.new.me.0 ≡ joined all.old.me.0 hands.items }
{
    for hand in hands {
        let Hand { seat, spent: _ } = hand;
        claims.shared.join_seat::<Joins>(all, seat);
    }
}

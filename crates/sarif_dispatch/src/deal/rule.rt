//! The deal's rule, and what each step shows.
ghost use Rattle.std.specs.Prelude.{◌≡◌, ◌+◌, ◌-◌, [], ◌++◌};
ghost use Rattle.sarif_dispatch.specs.Claims.{Dealt, Learns, hand_view, drew};

use atomic_table::{Join, Play, Split, TableRule};
use std::collections::LinkedList;

/// How many runs are dealt, and to how many hands.
#[derive(Clone, Copy)]
pub struct Terms {
    /// How many runs are dealt.
    pub runs: u32,
    /// To how many hands they are dealt.
    pub hands: u32,
}

/// What a hand knows. No value of it is made.
pub struct HandView {
    /// How many runs are dealt.
    pub runs: u32,
    /// To how many hands they are dealt.
    pub hands: u32,
    /// The number of hands that it represents.
    pub parts: u32,
    /// How many of these found no run.
    pub marks: u32,
    /// The runs that these drew.
    pub drawn: LinkedList<u32>,
}

/// The rule that the word of a deal keeps with its hands: each run below the word is drawn once, by
/// one hand.
pub struct Dealing;

impl TableRule<(), HandView, Terms> for Dealing {
    ghost holds = { Dealt };

    ghost first = { λ k. hand_view k.runs k.hands k.hands 0 [] };
}

/// One more hand.
pub struct Shares;

impl Split<HandView> for Shares {
    ghost left = { λ v. hand_view v.runs v.hands (v.parts - 1) v.marks v.drawn };

    ghost right = { λ v. hand_view v.runs v.hands 1 0 [] };
}

/// A hand comes back.
pub struct Joins;

impl Join<HandView> for Joins {
    ghost both = { λ v w. hand_view v.runs v.hands (v.parts + w.parts) (v.marks + w.marks)
        (v.drawn ++ w.drawn) };

    ghost spent = { hand_view 0 0 0 0 [] };
}

/// A draw: the word before it is the run, if it is one.
pub struct Draws;

impl Play<(), HandView> for Draws {
    ghost then = { λ step me found after. after ≡ (drew found me.0, me.1) };
}

/// A look at the word by the hand that represents all.
pub struct Look;

impl Play<(), HandView> for Look {
    ghost then = { λ step me found after. (after ≡ me) × Learns me.0 found };
}

//! The deal.
ghost use Rattle.std.specs.Prelude.{◌≡◌, ◌≤◌, ◌<◌, ℕ, length, vec_len, All, slice_index_or};
ghost use Rattle.sarif_dispatch.specs.Hands.{IsHandOf, AreAllHands};

use sarif_dispatch::{Deal, Hand};
use std::process::Abort;
use std::sync::atomic::{AtomicU64, Ordering};
use std::test::Fail;
use std::thread;
use std::thread::Threads;

#[test]
fn each_run_is_drawn_once_and_then_none(rt: HostRuntime) -> Result<(), Fail> {
    let (deal, mut hands) = Deal::new(rt.alloc(), 3, 2)?;
    let (Some(mut b), Some(mut a)) = (hands.pop(), hands.pop()) else {
        panic!(rt; "there are two hands")
    };
    check_draws(&rt, &deal, &mut a, &mut b);
    hands.push(a)?;
    hands.push(b)?;
    assert_eq!(rt; deal.settle(hands), 3);
    Ok(())
}

// Two hands draw the three runs of a deal, and then none.
fn check_draws(rt: &impl Abort, deal: &Deal, a: &mut Hand, b: &mut Hand)
    requires a { IsHandOf deal.now a.old }
    requires b { IsHandOf deal.now b.old }
    ensures a { IsHandOf deal.now a.new }
    ensures b { IsHandOf deal.now b.new }
{
    assert_eq!(rt; deal.draw(a), Some(0));
    assert_eq!(rt; deal.draw(b), Some(1));
    assert_eq!(rt; deal.draw(a), Some(2));
    assert_eq!(rt; deal.draw(b), None);
    assert_eq!(rt; deal.draw(a), None);
    assert_eq!(rt; deal.draw(a), None);
}

const RUNS: u32 = 10_000;

// A hand draws until no run is left, and counts how often each run was drawn.
fn draw_out(deal: &Deal, drawn: &[AtomicU64], hand: &mut Hand)
    requires { IsHandOf deal.now hand.old }
    ensures { IsHandOf deal.now hand.new }
{
    for _ in 0..=RUNS {
        let Some(run) = deal.draw(hand) else {
            return;
        };
        if let Some(times) = drawn.get(run as usize) {
            times.fetch_add(1, Ordering::SeqCst);
        }
    }
}

// Each hand draws in a separate thread.
fn draw_each<R: Threads + Sync>(rt: &R, deal: &Deal, drawn: &[AtomicU64], hands: &mut [Hand])
    requires { All (IsHandOf deal.now) hands.old }
    ensures len { length hands.new ≡ length hands.old }
    ensures each { (i : ℕ) (d : _) → i < length hands.old
        → IsHandOf deal.now (slice_index_or hands.new i d) }
{
    thread::for_each_mut(rt, hands, 8, &|_, hand| draw_out(deal, drawn, hand));
}

fn draw_all<R: Threads + Sync>(
    rt: &R,
    deal: &Deal,
    drawn: &[AtomicU64],
    mut hands: Vec<Hand>,
) -> Vec<Hand>
    requires { AreAllHands deal.now hands.items }
    ensures { AreAllHands deal.now result.items }
{
    draw_each(rt, deal, drawn, hands.as_mut_slice());
    hands
}

#[test]
fn eight_hands_draw_each_run_once(rt: HostRuntime) -> Result<(), Fail> {
    let (deal, hands) = Deal::new(rt.alloc(), RUNS, 8)?;
    let mut drawn = Vec::new(rt.alloc());
    for _ in 0..RUNS {
        drawn.push(AtomicU64::new(0))?;
    }
    let hands = draw_all(&rt, &deal, drawn.as_slice(), hands);
    for times in drawn.as_slice() {
        assert_eq!(rt; times.load(Ordering::SeqCst), 1);
    }
    assert_eq!(rt; deal.settle(hands), RUNS);
    Ok(())
}

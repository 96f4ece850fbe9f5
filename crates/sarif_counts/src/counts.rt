//! How many results a merged log holds, by baseline state, level and suppression.
ghost use Rattle.std.specs.Prelude.{◌+◌, ◌<◌, ◌^◌};
ghost use Rattle.sarif_counts.specs.Tally.{tally_total};

use crate::tally::Tally;
use sarif_model::{Level, State};

/// The results of a merged log, counted by baseline state, level, and active or suppressed: fewer
/// than 2^32 of them.
#[derive(Clone, Copy, Debug, PartialEq, Eq)]
pub struct Counts {
    absent: Tally,
    fresh: Tally,
    unchanged: Tally,
    updated: Tally,
    ghost few: { tally_total absent + tally_total fresh
        + tally_total unchanged + tally_total updated < 2 ^ 32 },
}

impl Counts {
    ghost use Rattle.std.specs.Prelude.{◌≡◌};
    ghost use Rattle.sarif_counts.specs.Internal.Both.{AreOfBoth};
    ghost use Rattle.sarif_counts.specs.Counts.{count_at, tally_at, total_of, HoldsNothing, AddsOne};

    /// The counts of no results.
    pub fn new() -> Counts
        ensures nothing { HoldsNothing result }
        ensures total { total_of result ≡ 0 }
    {
        Counts {
            absent: Tally::ZERO,
            fresh: Tally::ZERO,
            unchanged: Tally::ZERO,
            updated: Tally::ZERO,
        }
    }

    /// Counts one more result, which is the 4,294,967,295th at most.
    pub fn add(&mut self, state: State, level: Level, suppressed: bool)
        requires { total_of self.old + 1 < 2 ^ 32 }
        ensures one { AddsOne self.old self.new state level suppressed }
        ensures total { total_of self.new ≡ total_of self.old + 1 }
    {
        match state {
            State::New => self.fresh.add(level, suppressed),
            State::Unchanged => self.unchanged.add(level, suppressed),
            State::Updated => self.updated.add(level, suppressed),
            State::Absent => self.absent.add(level, suppressed),
        }
    }

    /// The counts of the results of both, which are 4,294,967,295 at most.
    pub fn plus(self, other: Counts) -> Counts
        requires { total_of self + total_of other < 2 ^ 32 }
        ensures both { AreOfBoth self other result }
        ensures total { total_of result ≡ total_of self + total_of other }
    {
        Counts {
            absent: self.absent.plus(other.absent),
            fresh: self.fresh.plus(other.fresh),
            unchanged: self.unchanged.plus(other.unchanged),
            updated: self.updated.plus(other.updated),
        }
    }

    /// How many results there are of this state and level that are suppressed, or, where
    /// `suppressed` is false, active.
    pub fn get(&self, state: State, level: Level, suppressed: bool) -> u32
        ensures { result ≡ count_at self.now state level suppressed }
    {
        self.of(state).side(suppressed).get(level)
    }

    /// The results of one state.
    pub(crate) fn of(&self, state: State) -> Tally
        ensures value { result ≡ tally_at self.now state }
        ensures few { tally_total result < 2 ^ 32 }
    {
        match state {
            State::New => self.fresh,
            State::Unchanged => self.unchanged,
            State::Updated => self.updated,
            State::Absent => self.absent,
        }
    }
}

impl Default for Counts {
    ghost use Rattle.sarif_counts.specs.Counts.{HoldsNothing};

    ghost is_default = { λ counts. HoldsNothing counts };

    fn default() -> Counts {
        Counts::new()
    }
}

//! What a collector gives in the end: each run's items, in the order of their numbers, and its
//! tail.
ghost use Rattle.std.specs.Prelude.{◌≡◌, ◌<◌, ◌^◌, [], ◌∷◌, ◌++◌, map, length};
ghost use Rattle.std.specs.Prelude.{slice_get, MatchOption, option_map};
ghost use Rattle.sarif_collect.specs.Slot.{whole_of};

use std::marker::Model;

/// The runs in order, each with its items and its tail.
#[derive(Drop)]
pub struct Lists<T, C> {
    runs: Vec<(Vec<T>, C)>,
}

impl<T, C> Model for Lists<T, C> {
    ghost use Rattle.std.specs.Prelude.{List, map, length, ◌<◌, ◌^◌};
    ghost use Rattle.sarif_collect.specs.Held.{Whole};
    ghost use Rattle.sarif_collect.specs.Slot.{whole_of};

    ghost Value = { List (Whole T C) };

    ghost view = { λ l. map whole_of l.runs.items };

    ghost invariant = { λ l. length l.runs.items < 2 ^ 32 };
}

impl<T, C> Lists<T, C> {
    pub(crate) fn new(runs: Vec<(Vec<T>, C)>) -> Self
        requires { length runs.items < 2 ^ 32 }
        ensures { result ≡ map whole_of runs.items }
    {
        Lists { runs }
    }

    /// The number of runs.
    pub fn runs(&self) -> u32
        ensures { result ≡ length self.now }
    {
        self.runs.len() as u32
    }

    /// The items of a run, in the order of their numbers.
    pub fn items(&self, run: u32) -> &[T]
        requires { run < length self.now }
        ensures { option_map (λ w. w.items) (slice_get self.now run) ≡ Some result.now }
    {
        self.runs[run as usize].0.as_slice()
    }

    /// The tail of a run.
    pub fn tail(&self, run: u32) -> &C
        requires { run < length self.now }
        ensures { option_map (λ w. w.tail) (slice_get self.now run) ≡ Some result.now }
    {
        &self.runs[run as usize].1
    }

    /// Takes the last run off.
    pub fn pop(&mut self) -> Option<(Vec<T>, C)>
        ensures { MatchOption result ((self.old ≡ []) × (self.new ≡ []))
            (λ r. self.old ≡ self.new ++ whole_of r ∷ []) }
    {
        self.runs.pop()
    }
}

//! An unfinished matching: the matches so far, and marks for the matched results.
ghost use Rattle.std.specs.Prelude.{◌≡◌, ◌<◌, Some, None, false, length, replicate, slice_set, IfOk};
ghost use Rattle.sarif_match.specs.Partners.{has_partner, put_all};
ghost use Rattle.sarif_match.specs.Internal.Fits.{Fits};

use std::alloc::{AllocError, Global};

/// The matches so far, and which results are matched.
#[derive(Drop)]
pub(crate) struct Progress {
    /// The match of each current result, if it has one.
    pub(crate) partners: Vec<Option<u32>>,
    /// Whether each current result has a match.
    pub(crate) paired: Vec<bool>,
    /// Whether each baseline result is the match of a current result.
    pub(crate) taken: Vec<bool>,
}

impl Progress {
    ghost use Rattle.sarif_match.specs.Internal.Progress.{IsSound};

    /// No result has a match.
    pub(crate) fn new(
        alloc: Global,
        current: usize,
        baseline: usize,
    ) -> Result<Progress, AllocError>
        ensures sound { IfOk result (IsSound current baseline) }
        ensures none { IfOk result (λ p. p.partners.items ≡ replicate current None) }
    {
        Ok(Progress {
            partners: vec![in alloc; None; current]?,
            paired: vec![in alloc; false; current]?,
            taken: vec![in alloc; false; baseline]?,
        })
    }

    /// Puts these pairs in.
    pub(crate) fn put_pairs(&mut self, pairs: &[(u32, u32)])
        requires sound { IsSound (length self.old.partners.items)
            (length self.old.taken.items) self.old }
        requires fits { Fits (length self.old.taken.items) self.old.partners.items pairs.now }
        ensures sound { IsSound (length self.old.partners.items)
            (length self.old.taken.items) self.new }
        ensures put { self.new.partners.items ≡ put_all self.old.partners.items pairs.now }
    {
        for (i, j) in pairs {
            self.put_pair(*i, *j);
        }
    }

    /// Makes baseline result `j` the match of current result `i`.
    fn put_pair(&mut self, i: u32, j: u32)
        requires sound { IsSound (length self.old.partners.items)
            (length self.old.taken.items) self.old }
        requires current { i < length self.old.partners.items }
        requires left { has_partner self.old.partners.items i ≡ false }
        requires baseline { j < length self.old.taken.items }
        ensures sound { IsSound (length self.old.partners.items)
            (length self.old.taken.items) self.new }
        ensures put { self.new.partners.items ≡ slice_set self.old.partners.items i (Some j) }
    {
        self.partners[i as usize] = Some(j);
        self.paired[i as usize] = true;
        self.taken[j as usize] = true;
    }
}

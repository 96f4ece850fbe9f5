//! The work of judging: each run of it is a shard of the results.
ghost use Rattle.std.specs.Prelude.{◌≡◌, ◌≤◌, ◌<◌, ◌+◌, ◌*◌, IfOk, map, length};
ghost use Rattle.std.specs.List.{All};
ghost use Rattle.sarif_runs.specs.Internal.Opened.{placed_of};
ghost use Rattle.sarif_results.specs.Internal.OutcomesAt.{outcome_at};
ghost use Rattle.sarif_runs.specs.Internal.Spots.{IsSpotOf};
ghost use Rattle.sarif_model.specs.Limits.{most_results};
ghost use Rattle.sarif_dispatch.specs.Limits.{most_runs};

use crate::chunk::chunk_of;
use crate::judged_result::judge_result;
use crate::shard::Shard;
use sarif_gather::Work;
use sarif_results::Outcome;
use sarif_runs::{OpenedRun, Spot};
use sarif_suppress::Suppressions;
use std::alloc::{AllocError, Global};

/// The results to be judged, in shards of `size` places each.
#[derive(Drop)]
pub(crate) struct Judging<'w, 't: 'w, 'a: 't> {
    pub(crate) runs: &'w [OpenedRun<'t, 'a>],
    pub(crate) spots: &'w [Spot],
    pub(crate) file: &'w Suppressions,
    pub(crate) size: usize,
    pub(crate) shards: u32,
    ghost within: { All (IsSpotOf (map placed_of runs.now)) spots.now },
    ghost few: { shards ≤ most_runs },
    ghost small: { size ≤ most_results + 1 },
}

/// Judges some results, in order.
pub(crate) fn judge_spots(
    alloc: Global,
    runs: &[OpenedRun<'_, '_>],
    spots: &[Spot],
    file: &Suppressions,
) -> Result<Vec<Outcome>, AllocError>
    requires within { All (IsSpotOf (map placed_of runs.now)) spots.now }
    ensures { IfOk result (λ outcomes. outcomes.items
        ≡ map (outcome_at file.now (map placed_of runs.now)) spots.now) }
{
    let mut outcomes = Vec::with_capacity(alloc, spots.len())?;
    for spot in spots {
        outcomes.push(judge_result(alloc, &runs[spot.run as usize], spot.seq, file)?)?;
    }
    Ok(outcomes)
}

impl<'w, 't: 'w, 'a: 't> Work for Judging<'w, 't, 'a> {
    ghost use Rattle.std.specs.Prelude.{◌≡◌, map};
    ghost use Rattle.sarif_runs.specs.Internal.Opened.{placed_of};
    ghost use Rattle.sarif_results.specs.Internal.OutcomesAt.{judged_shard};

    type Head = u32;

    type Item = Shard;

    type Tail = ();

    ghost run_count = { λ w. w.shards };

    ghost count = { λ w run. 1 };

    ghost item = { λ w run seq.
        judged_shard w.file.now (map placed_of w.runs.now) w.size w.spots.now run };

    ghost end = { λ w run. tt };

    ghost IsHeadOf = { λ w run head. head ≡ run };

    ghost few = { λ w. w.few };

    fn runs(&self) -> u32 {
        self.shards
    }

    fn start(&self, _alloc: Global, run: u32) -> Result<u32, AllocError> {
        Ok(run)
    }

    fn len(&self, _head: &u32) -> u32 {
        1
    }

    fn make(&self, alloc: Global, head: &u32, _seq: u32) -> Result<Shard, AllocError> {
        let start = *head as usize * self.size;
        let spots = chunk_of(self.spots, start, self.size);
        let outcomes = judge_spots(alloc, self.runs, spots, self.file)?;
        Ok(Shard::new(outcomes))
    }

    fn tail(&self, _head: u32) {}
}

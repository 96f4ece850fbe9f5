//! What results say about their security severity themselves.
ghost use Rattle.std.specs.Prelude.{◌≡◌, IfOk, map};
ghost use Rattle.std.specs.List.{All};
ghost use Rattle.sarif_runs.specs.Internal.Opened.{placed_of};
ghost use Rattle.sarif_runs.specs.Internal.Spots.{IsSpotOf};
ghost use Rattle.sarif_ratings.specs.Internal.Listed.{own_of};
ghost use Rattle.sarif_ratings.specs.Ratings as said;

use crate::listed::ListedResult;
use sarif_policy::{Rating, rating_of};
use sarif_runs::{OpenedRun, Spot};
use sarif_share::{Sharing, each_of, share_jobs};
use std::alloc::{AllocError, Global};
use std::thread::Threads;

/// For fewer results it is not worth starting another thread.
const LEAST_SHARED: usize = 32;

/// The results at these places.
fn list_results<'w, 't, 'a>(
    alloc: Global,
    runs: &'w [OpenedRun<'t, 'a>],
    spots: &[Spot],
) -> Result<Vec<ListedResult<'w, 't, 'a>>, AllocError>
    requires within { All (IsSpotOf (map placed_of runs.now)) spots.now }
    ensures { IfOk result (λ list. map own_of list.items
        ≡ map (said.own_rating_at (map placed_of runs.now)) spots.now) }
{
    let mut list = Vec::with_capacity(alloc, spots.len())?;
    for spot in spots {
        list.push(ListedResult {
            run: &runs[spot.run as usize],
            seq: spot.seq,
        })?;
    }
    Ok(list)
}

/// What a result says itself.
fn rate(alloc: Global, listed: &ListedResult<'_, '_, '_>) -> Result<Rating, AllocError>
    ensures { IfOk result (λ rating. rating ≡ own_of listed.now) }
{
    let found = listed.run.pick_result(alloc, listed.seq, &["properties"])?;
    rating_of(alloc, &found, None)
}

/// What these results say themselves, read in at most `threads` threads, this one among them.
fn rate_all<'s, 'w, 't, 'a, R: Threads + Sync>(
    rt: &R,
    alloc: Global,
    list: &'s [ListedResult<'w, 't, 'a>],
    threads: u32,
) -> Result<Vec<Rating>, AllocError>
    ensures { IfOk result (λ ratings. ratings.items ≡ map own_of list.now) }
{
    let sharing = Sharing {
        rt,
        alloc,
        threads,
        least: LEAST_SHARED,
    };
    let one = move |listed|
        ensures { IfOk result (λ rating. rating ≡ own_of listed.now) }
    { rate(alloc, listed) };
    let each = each_of(alloc, list)?;
    let ratings = share_jobs(&sharing, each, &one)?;
    Ok(ratings)
}

/// Returns what the results at these places say about their security severity themselves, in order. At most `threads`
/// threads do it, this one among them. Returns `AllocError` if memory runs out.
pub fn own_ratings<R: Threads + Sync>(
    rt: &R,
    alloc: Global,
    runs: &[OpenedRun<'_, '_>],
    spots: &[Spot],
    threads: u32,
) -> Result<Vec<Rating>, AllocError>
    requires within { All (IsSpotOf (map placed_of runs.now)) spots.now }
    ensures { IfOk result (λ ratings. ratings.items
        ≡ map (said.own_rating_at (map placed_of runs.now)) spots.now) }
{
    let list = list_results(alloc, runs, spots)?;
    let ratings = rate_all(rt, alloc, &list, threads)?;
    Ok(ratings)
}

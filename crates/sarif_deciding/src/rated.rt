//! The security severity of results of runs.
ghost use Rattle.std.specs.Prelude.{◌≡◌, ◌<◌, List, get_or, length, map, IfOk};
ghost use Rattle.std.specs.List.{All};
ghost use Rattle.sarif_policy.specs.declared.rating.Rating.TheVariants.{Missing};
ghost use Rattle.sarif_ratings.specs.Ratings.{rating_at};
ghost use Rattle.sarif_results.specs.declared.draft.Draft.{Draft as AnyDraft};
ghost use Rattle.sarif_runs.specs.Internal.Opened.{placed_of};
ghost use Rattle.sarif_runs.specs.Internal.Spots.{IsSpotOf};
ghost use Rattle.sarif_deciding.specs.Internal.Rated.{ratings_in, ratings_or};
ghost use Rattle.sarif_deciding.specs.Results.{for_each};

use crate::ratings::{RatedResults, Ratings};
use sarif_policy::Rating;
use sarif_ratings::{own_ratings, rate_runs};
use sarif_results::Draft;
use sarif_runs::{OpenedRun, Spot};
use std::alloc::{AllocError, Global};
use std::thread::Threads;

/// Rates the results at these places, in at most `threads` threads, this one among them.
pub(crate) fn rate<'w, 't, 'a, R: Threads + Sync>(
    rt: &R,
    alloc: Global,
    opened: &'w [OpenedRun<'t, 'a>],
    spots: Vec<Spot>,
    threads: u32,
) -> Result<Ratings<'w, 't, 'a>, AllocError>
    requires within { All (IsSpotOf (map placed_of opened.now)) spots.items }
    ensures { IfOk result (λ ratings. (drafts : List AnyDraft) → ratings_or ratings drafts
        ≡ map (rating_at (map placed_of opened.now)) spots.items) }
{
    let own = own_ratings(rt, alloc, opened, &spots, threads)?;
    let runs = rate_runs(alloc, opened)?;
    let rated = RatedResults {
        opened,
        spots,
        runs,
        own,
    };
    Ok(Ratings {
        rated: Some(rated),
        missing: Rating::Missing,
    })
}

/// Returns the ratings of results that aren't rated.
pub(crate) fn unrated<'w, 't, 'a>() -> Ratings<'w, 't, 'a>
    ensures { (drafts : List AnyDraft) → ratings_or result drafts ≡ for_each Missing drafts }
{
    Ratings {
        rated: None,
        missing: Rating::Missing,
    }
}

/// The rating of the result with that number among those that are rated.
fn rated_at<'r>(rated: &'r RatedResults<'_, '_, '_>, number: usize) -> &'r Rating
    requires { number < length rated.now.spots.items }
    ensures { result.now ≡ get_or (ratings_in rated.now) number result.now }
{
    let spot = rated.spots[number];
    let rule = rated.opened[spot.run as usize].rule_reference(spot.seq);
    let run = &rated.runs[spot.run as usize];
    run.rating(&rated.own[number], &rule)
}

/// The ratings of results that are rated.
fn list_rated<'r>(
    alloc: Global,
    rated: &'r RatedResults<'_, '_, '_>,
) -> Result<Vec<&'r Rating>, AllocError>
    ensures { IfOk result (λ list. map (λ r. r.now) list.items ≡ ratings_in rated.now) }
{
    let mut list = Vec::with_capacity(alloc, rated.spots.len())?;
    for number in 0..rated.spots.len() {
        list.push(rated_at(rated, number))?;
    }
    Ok(list)
}

/// This rating for each of these results.
fn list_missing<'r>(
    alloc: Global,
    missing: &'r Rating,
    drafts: &[Draft],
) -> Result<Vec<&'r Rating>, AllocError>
    ensures { IfOk result (λ list. map (λ r. r.now) list.items ≡ for_each missing.now drafts.now) }
{
    let mut list = Vec::with_capacity(alloc, drafts.len())?;
    for _draft in drafts {
        list.push(missing)?;
    }
    Ok(list)
}

/// Returns the ratings of the results with these drafts.
pub(crate) fn list_ratings<'r>(
    alloc: Global,
    ratings: &'r Ratings<'_, '_, '_>,
    drafts: &[Draft],
) -> Result<Vec<&'r Rating>, AllocError>
    ensures { IfOk result
        (λ list. map (λ r. r.now) list.items ≡ ratings_or ratings.now drafts.now) }
{
    match &ratings.rated {
        Some(rated) => list_rated(alloc, rated),
        None => list_missing(alloc, &ratings.missing, drafts),
    }
}

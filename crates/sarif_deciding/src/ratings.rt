//! Results with what is needed for their ratings.
ghost use Rattle.std.specs.Prelude.{◌≡◌, map};
ghost use Rattle.std.specs.List.{All};
ghost use Rattle.serde_json.specs.Data.{Data};
ghost use Rattle.serde_json.specs.View.{view};
ghost use Rattle.sarif_policy.specs.declared.rating.Rating.TheVariants.{Missing};
ghost use Rattle.sarif_ratings.specs.Ratings.{own_rating_at, rating_in};
ghost use Rattle.sarif_runs.specs.Internal.Opened.{placed_of};
ghost use Rattle.sarif_runs.specs.Internal.Spots.{IsSpotOf};

use sarif_policy::Rating;
use sarif_ratings::RatedRun;
use sarif_runs::{OpenedRun, Spot};

/// Results of runs, with what is needed for their ratings.
#[derive(Drop)]
pub(crate) struct RatedResults<'w, 't: 'w, 'a: 't> {
    pub(crate) opened: &'w [OpenedRun<'t, 'a>],
    /// The places of the results.
    pub(crate) spots: Vec<Spot>,
    /// The runs with their rules rated.
    pub(crate) runs: Vec<RatedRun<'w>>,
    /// What each result says itself.
    pub(crate) own: Vec<Rating>,
    ghost within: { All (IsSpotOf (map placed_of opened.now)) spots.items },
    ghost own_are: { own.items ≡ map (own_rating_at (map placed_of opened.now)) spots.items },
    ghost runs_are: { (found : Data) → map (λ run. rating_in (view run) found) runs.items
        ≡ map (λ run. rating_in (placed_of run).run found) opened.now },
}

/// The ratings of results; without them each is missing.
#[derive(Drop)]
pub(crate) struct Ratings<'w, 't: 'w, 'a: 't> {
    pub(crate) rated: Option<RatedResults<'w, 't, 'a>>,
    /// The rating of each result if they aren't rated.
    pub(crate) missing: Rating,
    ghost missing_is: { missing ≡ Missing },
}

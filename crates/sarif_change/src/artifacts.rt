//! A change and the artifacts of a run. Each artifact is looked up once.
ghost use Rattle.std.specs.Prelude.{◌≡◌, IfOk, false, map};
ghost use Rattle.std.specs.List.{list_any, Contains};
ghost use Rattle.sarif_change.specs.Known.{AreKnown, uri_meets};
ghost use Rattle.sarif_change.specs.Named.{named_spot, named_spots, named_uri};
ghost use Rattle.sarif_change.specs.Outside as said;
ghost use Rattle.sarif_change.specs.Places.{uri_at};
ghost use Rattle.sarif_change.specs.declared.spots.Spot.{Spot as OneSpot};

use crate::changed::{Changed, lines_in};
use crate::known::{KnownPath, paths_of_all};
use crate::spots::{ArtifactName, NamedPlace, NamedPlaces, Scope};
use sarif_diff::Span;
use sarif_model::{Place, Sequence, Text};
use std::alloc::{AllocError, Global};

/// A change and the artifacts of a run, so that many results of the run are compared with the change. Each artifact is
/// looked up once, however many results have it and however long its URI is.
#[derive(Drop)]
pub struct KnownArtifacts<'c> {
    /// The change.
    pub changed: &'c Changed,
    /// What URIs may begin with (`--root`).
    pub roots: &'c [Text],
    /// What of a changed file is treated as changed.
    pub scope: Scope,
    /// The places of the artifacts.
    pub artifacts: Sequence<Place>,
    /// What the change says about their paths.
    paths: Vec<KnownPath<'c>>,
    pub ghost are_known: { AreKnown changed.now roots.now artifacts paths.items },
}

impl KnownArtifacts<'_> {
    /// Returns whether a place at the artifact with this number and these lines meets the change, if it has a URI.
    #[tactic(auto, using(crate::proofs::KnownMore::none_there, crate::proofs::KnownMore::some_there))]
    fn meeting_at(&self, number: u64, lines: Option<Span>) -> Option<bool>
        ensures { result ≡ uri_meets self.now.changed.now self.now.roots.now lines
            (uri_at self.now.artifacts number) }
    {
        self.paths.get(number as usize)?.meeting(lines)
    }

    /// Returns whether a place at an artifact with that name and these lines meets the change, if that has a URI.
    fn meeting_in(
        &self,
        alloc: Global,
        artifact: ArtifactName<'_>,
        lines: Option<Span>,
    ) -> Result<Option<bool>, AllocError>
        ensures { IfOk result (λ met. met ≡ uri_meets self.now.changed.now self.now.roots.now lines
            (named_uri self.now.artifacts artifact.entry)) }
    {
        match artifact {
            ArtifactName::Unnamed => Ok(None),
            ArtifactName::Uri(uri) => {
                let met = self.changed.meets(alloc, self.roots, uri, lines)?;
                Ok(Some(met))
            }
            ArtifactName::Index(number) => Ok(self.meeting_at(number, lines)),
        }
    }

    /// Returns whether a place meets the change, if it has a path.
    fn meeting(&self, alloc: Global, place: &NamedPlace<'_>) -> Result<Option<bool>, AllocError>
        ensures { IfOk result (λ met. met
            ≡ said.meeting self.now.changed.now self.now.roots.now self.now.scope
            (named_spot self.now.artifacts place.now)) }
    {
        let lines = lines_in(self.scope, place.region);
        let met = self.meeting_in(alloc, place.artifact, lines)?;
        Ok(met)
    }

    /// Returns whether there are places, and each has a path and doesn't meet the change.
    #[tactic(auto, using(crate::proofs::OutsideMore::none_missed, crate::proofs::OutsideMore::all_missed, crate::proofs::OutsideMore::not_missed))]
    fn are_missed(&self, alloc: Global, places: &[NamedPlace<'_>]) -> Result<bool, AllocError>
        ensures { IfOk result (λ missed. missed
            ≡ said.are_missed self.now.changed.now self.now.roots.now self.now.scope
            (map (named_spot self.now.artifacts) places.now)) }
    {
        if places.is_empty() {
            return Ok(false);
        }
        for place in places {
            if self.meeting(alloc, place)?.unwrap_or(true) {
                return Ok(false);
            }
        }
        Ok(true)
    }

    /// Returns whether one of these places has a path and meets the change.
    fn any_met(&self, alloc: Global, places: &[NamedPlace<'_>]) -> Result<bool, AllocError>
        ensures { IfOk result (λ met. met
            ≡ list_any (said.is_met self.now.changed.now self.now.roots.now self.now.scope)
            (map (named_spot self.now.artifacts) places.now)) }
    {
        for place in places {
            if self.meeting(alloc, place)?.unwrap_or(false) {
                return Ok(true);
            }
        }
        Ok(false)
    }

    /// Returns whether a result of the run with these places is outside of the change: it has locations, each has a path
    /// and doesn't meet the change, no other place meets it, and none is kept elsewhere in the run. No result is outside
    /// that has a location in the change. Returns `AllocError` if memory runs out.
    #[tactic(auto, using(crate::proofs::OutsideMore::never_outside, crate::proofs::OutsideMore::kept_elsewhere, crate::proofs::OutsideMore::not_each_missed, crate::proofs::OutsideMore::others_met))]
    pub fn is_outside(&self, alloc: Global, places: &NamedPlaces<'_>) -> Result<bool, AllocError>
        ensures is { IfOk result (λ outside. outside
            ≡ said.is_outside self.now.changed.now self.now.roots.now self.now.scope
            (named_spots self.now.artifacts places.now)) }
        ensures no_false_pass { IfOk result (λ outside. (spot : OneSpot)
            → Contains (named_spots self.now.artifacts places.now).locations spot
            → said.IsInChange self.now.changed.now self.now.roots.now self.now.scope spot
            → outside ≡ false) }
    {
        if places.elsewhere {
            return Ok(false);
        }
        if !self.are_missed(alloc, places.locations.as_slice())? {
            return Ok(false);
        }
        let met = self.any_met(alloc, places.others.as_slice())?;
        Ok(!met)
    }
}

impl Changed {
    /// Looks up these artifacts of a run. `roots` are what URIs may begin with (`--root`). Returns `AllocError` if
    /// memory runs out.
    pub fn know_artifacts<'c>(
        &'c self,
        alloc: Global,
        roots: &'c [Text],
        scope: Scope,
        artifacts: Sequence<Place>,
    ) -> Result<KnownArtifacts<'c>, AllocError>
        ensures changed { IfOk result (λ known. known.changed.now ≡ self.now) }
        ensures roots { IfOk result (λ known. known.roots.now ≡ roots.now) }
        ensures scope { IfOk result (λ known. known.scope ≡ scope) }
        ensures artifacts { IfOk result (λ known. known.artifacts ≡ artifacts) }
    {
        let paths = paths_of_all(alloc, self, roots, artifacts.as_slice())?;
        Ok(KnownArtifacts {
            changed: self,
            roots,
            scope,
            artifacts,
            paths,
        })
    }
}

//! What the conditions of a policy decide about a result together.
ghost use Rattle.std.specs.Prelude.{◌≡◌, ◌≤◌, map, length, count_by, IfOk};
ghost use Rattle.sarif_conditions.specs.Internal.Deciding as said;
ghost use Rattle.sarif_conditions.specs.Judged.{judged_of};

use crate::asking::is_absent;
use crate::judged::JudgedResult;
use crate::outcome::Outcome;
use sarif_counts::Impact;
use sarif_model::Sequence;
use std::alloc::{AllocError, Global};

/// What conditions decide about a result together.
#[derive(Clone, Copy, Debug, PartialEq, Eq)]
pub struct Standing {
    /// One of them reports it.
    pub reported: bool,
    /// Whether it is a hit of one of them.
    pub hit: bool,
    /// Whether it is a hit of one of them that fails.
    pub stops: bool,
    /// Whether it is a hit of one of them, the `diff` of each left aside.
    pub known: bool,
    /// Whether it is active and current, and none of them checks it.
    pub unchecked: bool,
}

impl Standing {
    /// What is known about a result before any condition.
    fn before(found: &JudgedResult) -> Standing
        ensures { result ≡ said.standing_before (judged_of found.now) }
    {
        Standing {
            reported: false,
            hit: false,
            stops: false,
            known: false,
            unchecked: !found.suppressed && !is_absent(found.state),
        }
    }

    /// With what one condition more decides, which fails or doesn't.
    fn with_outcome(self, fails: bool, outcome: Outcome) -> Standing
        ensures { result ≡ said.with_outcome fails self outcome }
    {
        Standing {
            reported: self.reported || outcome.reported,
            hit: self.hit || outcome.hit,
            stops: self.stops || (fails && outcome.hit),
            known: self.known || (outcome.hit || outcome.outside),
            unchecked: self.unchecked && !outcome.checked,
        }
    }

    /// What the result does to the gate, if it is reported.
    fn impact(self) -> Option<Impact>
        ensures { result ≡ said.impact_in self }
    {
        if !self.reported {
            None
        } else if self.stops {
            Some(Impact::Stops)
        } else if self.hit {
            Some(Impact::Hit)
        } else {
            Some(Impact::None)
        }
    }
}

/// Returns what is known about each result before any condition.
pub(crate) fn standings_before(
    alloc: Global,
    results: &[JudgedResult],
) -> Result<Sequence<Standing>, AllocError>
    ensures { IfOk result (λ all. all ≡ map (λ r. said.standing_before (judged_of r)) results.now) }
{
    let mut all = Sequence::new(alloc);
    for found in results {
        all.push(Standing::before(found))?;
    }
    Ok(all)
}

/// Returns what is known about each result with what one condition more decides.
pub(crate) fn with_outcomes(
    alloc: Global,
    fails: bool,
    standings: &[Standing],
    outcomes: &[Outcome],
) -> Result<Sequence<Standing>, AllocError>
    requires { length outcomes.now ≡ length standings.now }
    ensures { IfOk result (λ all. all ≡ said.with_outcomes fails standings.now outcomes.now) }
{
    let mut all = Sequence::new(alloc);
    for (number, standing) in standings.iter().enumerate() {
        all.push(standing.with_outcome(fails, outcomes[number]))?;
    }
    Ok(all)
}

/// Returns what each result does to the gate, if it is reported.
pub(crate) fn impacts_of(
    alloc: Global,
    standings: &[Standing],
) -> Result<Sequence<Option<Impact>>, AllocError>
    ensures { IfOk result (λ all. all ≡ map said.impact_in standings.now) }
{
    let mut all = Sequence::new(alloc);
    for standing in standings {
        all.push(standing.impact())?;
    }
    Ok(all)
}

/// Returns of each result whether it is a hit, the `diff` of each condition left aside.
pub(crate) fn known_of(alloc: Global, standings: &[Standing]) -> Result<Sequence<bool>, AllocError>
    ensures { IfOk result (λ all. all ≡ map (λ (s : Standing). s.known) standings.now) }
{
    let mut all = Sequence::new(alloc);
    for standing in standings {
        all.push(standing.known)?;
    }
    Ok(all)
}

/// Returns how many results are hits.
pub(crate) fn count_hits(standings: &[Standing]) -> usize
    ensures is { result ≡ count_by (λ (s : Standing). s.hit) standings.now }
    ensures few { result ≤ length standings.now }
{
    standings.iter().filter(|standing| standing.hit).count()
}

/// Returns how many results are reported.
pub(crate) fn count_reported(standings: &[Standing]) -> usize
    ensures is { result ≡ count_by (λ (s : Standing). s.reported) standings.now }
    ensures few { result ≤ length standings.now }
{
    standings
        .iter()
        .filter(|standing| standing.reported)
        .count()
}

/// Returns how many active current results no condition checks.
pub(crate) fn count_unchecked(standings: &[Standing]) -> usize
    ensures is { result ≡ count_by (λ (s : Standing). s.unchecked) standings.now }
    ensures few { result ≤ length standings.now }
{
    standings
        .iter()
        .filter(|standing| standing.unchecked)
        .count()
}

//! What the conditions of a policy make of matched results, for later merges: their hits take the place of those of the
//! options.
ghost use Rattle.std.specs.Prelude.{◌≡◌, ◌≤◌, ◌+◌, Some, None, length, map, option_map, IfOk};
ghost use Rattle.std.specs.List.{count_by};
ghost use Rattle.sarif_conditions.specs.declared.decided.Decided.{Decided as Ruling};
ghost use Rattle.sarif_model.specs.Limits.{most_results};
ghost use Rattle.sarif_prepare.specs.Chosen as chosen;
ghost use Rattle.sarif_prepare.specs.Internal.Ruling as said;

use crate::pairing::Paired;
use sarif_conditions::Decided;
use sarif_counts::Impact;
use sarif_known::Standing;
use sarif_log::mask_states;
use sarif_model::State;
use std::alloc::{AllocError, Global};

/// What the conditions of a policy make of matched results.
#[derive(Drop)]
pub(crate) struct RuledSides {
    /// Which results of logs aren't hits.
    pub(crate) hidden: Vec<bool>,
    /// The states of the hits among them; the others have none.
    pub(crate) states: Vec<Option<State>>,
    /// How many results that are left of baselines are hits.
    pub(crate) absent: u32,
    /// What matching and the conditions say about each result of logs.
    pub(crate) standings: Vec<Standing>,
}

/// Returns whether a result that does this to the gate is a hit.
fn is_hit_by(impact: Option<Impact>) -> bool
    ensures { result ≡ chosen.is_hit_by impact }
{
    match impact {
        Some(impact) => impact.is_hit(),
        None => false,
    }
}

/// Returns which results aren't hits.
fn list_others(alloc: Global, impacts: &[Option<Impact>]) -> Result<Vec<bool>, AllocError>
    ensures { IfOk result (λ others. others.items ≡ map chosen.is_no_hit impacts.now) }
{
    let mut others = Vec::with_capacity(alloc, impacts.len())?;
    for impact in impacts {
        others.push(!is_hit_by(*impact))?;
    }
    Ok(others)
}

/// Returns how many results are hits.
fn count_hits(impacts: &[Option<Impact>]) -> usize
    ensures count { result ≡ count_by chosen.is_hit_by impacts.now }
    ensures few { result ≤ length impacts.now }
{
    impacts.iter().filter(|impact| is_hit_by(**impact)).count()
}

/// Returns the same with what the conditions decide: whether the result is a hit, or would be one inside the change.
fn with_hit(standing: Standing, hit: bool) -> Standing
    ensures { result ≡ record standing { would_hit = Some hit } }
{
    Standing {
        state: standing.state,
        doubtful: standing.doubtful,
        would_hit: Some(hit),
    }
}

/// Does the same for each of these results.
fn list_standings(
    alloc: Global,
    standings: &[Standing],
    hits: &[bool],
) -> Result<Vec<Standing>, AllocError>
    requires { length standings.now ≤ length hits.now }
    ensures { IfOk result (λ all. all.items ≡ chosen.with_hits standings.now hits.now) }
{
    let mut all = Vec::with_capacity(alloc, standings.len())?;
    for (number, standing) in standings.iter().enumerate() {
        all.push(with_hit(*standing, hits[number]))?;
    }
    Ok(all)
}

/// Returns what the conditions make of matched results.
fn rule_results(alloc: Global, decided: &Decided, paired: &Paired) -> Result<RuledSides, AllocError>
    requires impacts { length decided.now.impacts
        ≡ length paired.now.states.items + length paired.now.left.items }
    requires known { length decided.now.known
        ≡ length paired.now.states.items + length paired.now.left.items }
    requires standings { length paired.now.standings.items ≡ length paired.now.states.items }
    requires few { length paired.now.left.items ≤ most_results }
    ensures { IfOk result (said.IsRuled decided.now paired.now) }
{
    let count = paired.states.len();
    let (here, there) = decided.impacts.as_slice().split_at(count);
    let (known, _) = decided.known.as_slice().split_at(count);
    let hidden = list_others(alloc, here)?;
    let states = mask_states(alloc, &paired.states, &hidden)?;
    let standings = list_standings(alloc, &paired.standings, known)?;
    Ok(RuledSides {
        hidden,
        states,
        absent: count_hits(there) as u32,
        standings,
    })
}

/// Returns it if conditions decide.
pub(crate) fn rule_if(
    alloc: Global,
    decided: &Option<Decided>,
    paired: &Paired,
) -> Result<Option<RuledSides>, AllocError>
    requires impacts { (ruling : Ruling) → decided.now ≡ Some ruling → length ruling.impacts
        ≡ length paired.now.states.items + length paired.now.left.items }
    requires known { (ruling : Ruling) → decided.now ≡ Some ruling → length ruling.known
        ≡ length paired.now.states.items + length paired.now.left.items }
    requires standings { length paired.now.standings.items ≡ length paired.now.states.items }
    requires few { length paired.now.left.items ≤ most_results }
    ensures { IfOk result (said.IsRuledIf decided.now paired.now) }
{
    match decided {
        Some(decided) => {
            let ruled = rule_results(alloc, decided, paired)?;
            Ok(Some(ruled))
        }
        None => Ok(None),
    }
}

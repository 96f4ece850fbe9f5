//! What the conditions of a policy decide about the results of a merge, condition by condition.
ghost use Rattle.std.specs.Prelude.{◌≡◌, ◌≤◌, ◌<◌, ◌+◌, ◌^◌, ◌++◌, ◌∷◌, [], map, min, length, count_by, IfOk, OnOk};
ghost use Rattle.sarif_conditions.specs.Facts as told;
ghost use Rattle.sarif_conditions.specs.Internal.Deciding as said;
ghost use Rattle.sarif_conditions.specs.Judged.{judged_of};

use crate::facts::ConditionFacts;
use crate::judged::JudgedResult;
use crate::outcome::Outcome;
use crate::standing::{Standing, standings_before, with_outcomes};
use sarif_change::Scope;
use sarif_model::Sequence;
use sarif_policy::GateCondition;
use std::alloc::{AllocError, Global};

/// What the conditions so far decide about the results.
#[derive(Debug, Drop)]
pub struct Deciding {
    /// What they decide about each result together.
    pub standings: Sequence<Standing>,
    /// The facts about each of them.
    pub facts: Sequence<ConditionFacts>,
    /// How many of their filters match no current result.
    pub unused: u32,
}

/// Returns how many results are hits of the condition.
fn hits_by(outcomes: &[Outcome]) -> usize
    ensures is { result ≡ said.hits_by outcomes.now }
    ensures few { result ≤ length outcomes.now }
{
    outcomes.iter().filter(|outcome| outcome.hit).count()
}

/// Returns how many results would be hits of the condition, and aren't inside.
fn outside_by(outcomes: &[Outcome]) -> usize
    ensures is { result ≡ count_by (λ (o : Outcome). o.outside) outcomes.now }
    ensures few { result ≤ length outcomes.now }
{
    outcomes.iter().filter(|outcome| outcome.outside).count()
}

/// Returns by how many results a limit with a ratchet grows.
fn growth_by(outcomes: &[Outcome]) -> usize
    ensures is { result ≡ count_by (λ (o : Outcome). o.gone) outcomes.now }
    ensures few { result ≤ length outcomes.now }
{
    outcomes.iter().filter(|outcome| outcome.gone).count()
}

/// Returns how many hits the condition allows: `max`, and with a ratchet one more for each result that went away.
fn limit_by(condition: &GateCondition, outcomes: &[Outcome]) -> u64
    requires { length outcomes.now < 2 ^ 32 }
    ensures { result ≡ said.limit_by condition.now outcomes.now }
{
    let max = u64::from(condition.max);
    if condition.ratchet {
        max + growth_by(outcomes) as u64
    } else {
        max
    }
}

/// Returns the number, if there is a scope.
fn with_scope(diff: Option<Scope>, number: u32) -> Option<u32>
    ensures { result ≡ told.with_scope diff number }
{
    match diff {
        None => None,
        Some(_) => Some(number),
    }
}

/// Returns the facts about the condition.
fn facts_by(condition: &GateCondition, outcomes: &[Outcome]) -> Result<ConditionFacts, AllocError>
    requires { length outcomes.now < 2 ^ 32 }
    ensures { IfOk result (λ f. f ≡ said.facts_by condition.now outcomes.now) }
{
    let name = condition.name.clone()?;
    let hits = hits_by(outcomes) as u32;
    let limit = limit_by(condition, outcomes);
    let outside = with_scope(condition.diff, outside_by(outcomes) as u32);
    let fails = limit < u64::from(hits);
    Ok(ConditionFacts {
        name,
        hits,
        limit,
        outside,
        fails,
    })
}

/// Returns the sum, or the greatest number if it is greater.
fn sum_at_most(sum: u32, more: usize) -> u32
    ensures { result ≡ min told.most_unused (sum + more) }
{
    let more = more.min(u32::MAX as usize) as u32;
    sum.saturating_add(more)
}

impl Deciding {
    /// What is decided before any condition.
    pub(crate) fn before(alloc: Global, results: &[JudgedResult]) -> Result<Deciding, AllocError>
        ensures { IfOk result (λ all. all ≡ said.deciding_of [] (map judged_of results.now)) }
    {
        let standings = standings_before(alloc, results)?;
        Ok(Deciding {
            standings,
            facts: Sequence::new(alloc),
            unused: 0,
        })
    }

    /// Adds a condition: what it decides about each result, and how many filters of `only` and of `except` are unused.
    pub(crate) fn add(
        &mut self,
        alloc: Global,
        condition: &GateCondition,
        outcomes: &[Outcome],
        only: usize,
        except: usize,
    ) -> Result<(), AllocError>
        requires few { length outcomes.now < 2 ^ 32 }
        requires all { length outcomes.now ≡ length self.old.standings }
        ensures { OnOk result (self.new
            ≡ said.with_condition condition.now outcomes.now (only + except) self.old) }
    {
        let facts = facts_by(condition, outcomes)?;
        self.standings = with_outcomes(alloc, facts.fails, self.standings.as_slice(), outcomes)?;
        self.facts.push(facts)?;
        self.unused = sum_at_most(sum_at_most(self.unused, only), except);
        Ok(())
    }
}

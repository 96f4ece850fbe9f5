//! What a gate says about the conditions of a policy.
ghost use Rattle.std.specs.Prelude.{◌≡◌, ◌≤◌, length};
ghost use Rattle.std.specs.List.{list_any};
ghost use Rattle.sarif_conditions.specs.Facts as said;

use sarif_counts::Verdict;
use sarif_model::{Sequence, Text};

/// What a gate says about a condition.
#[derive(Debug, Drop)]
pub struct ConditionFacts {
    /// Its name.
    pub name: Text,
    /// How many hits it has.
    pub hits: u32,
    /// How many hits it allows.
    pub limit: u64,
    /// With `diff`: how many results would be its hits, and aren't inside.
    pub outside: Option<u32>,
    /// Whether it has more hits than it allows.
    pub fails: bool,
}

impl ConditionFacts {
    /// Returns the verdict of the condition.
    pub fn verdict(&self) -> Verdict
        ensures { result ≡ said.verdict_if self.now.fails }
    {
        verdict_if(self.fails)
    }
}

/// What a gate says about a policy.
#[derive(Debug, Drop)]
pub struct PolicyFacts {
    /// What it says about each condition, in the order of the policy.
    pub conditions: Sequence<ConditionFacts>,
    /// How many results are hits of a condition.
    pub hits: u32,
    /// How many results a condition reports.
    pub reported: u32,
    /// How many active current results no condition checks.
    pub unchecked: u32,
    /// How many filters match no current result, at most 4,294,967,295.
    pub unused_filters: u32,
}

/// Returns the verdict of what fails, or doesn't.
fn verdict_if(fails: bool) -> Verdict
    ensures { result ≡ said.verdict_if fails }
{
    if fails { Verdict::Fail } else { Verdict::Pass }
}

/// Returns whether one of the conditions fails.
fn any_fails(conditions: &[ConditionFacts]) -> bool
    ensures { result ≡ list_any (λ (c : ConditionFacts). c.fails) conditions.now }
{
    conditions.iter().any(|condition| condition.fails)
}

/// Returns the verdict of a gate with a policy: fail exactly if a condition fails.
pub fn verdict_of_policy(facts: &PolicyFacts) -> Verdict
    ensures { result ≡ said.verdict_told facts.now }
{
    verdict_if(any_fails(facts.conditions.as_slice()))
}

/// Returns how many conditions fail.
pub(crate) fn failed_conditions(facts: &PolicyFacts) -> usize
    ensures { result ≡ said.failed_told facts.now }
{
    let conditions = facts.conditions.as_slice();
    conditions
        .iter()
        .filter(|condition| condition.fails)
        .count()
}

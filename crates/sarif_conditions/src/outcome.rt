//! What one condition decides about one result.
ghost use Rattle.std.specs.Prelude.{◌≡◌, not, ◌&&◌};
ghost use Rattle.sarif_conditions.specs.Decided as decided;
ghost use Rattle.sarif_conditions.specs.Internal.Deciding as said;
ghost use Rattle.sarif_conditions.specs.Judged.{judged_of};
ghost use Rattle.sarif_options.specs.Policy.{is_listed};

use crate::asking::{asks_if, is_absent, is_inside};
use crate::judged::JudgedResult;
use sarif_policy::GateCondition;

/// What one condition decides about one result.
#[derive(Clone, Copy, Debug, PartialEq, Eq)]
pub struct Outcome {
    /// Whether it checks the result.
    pub checked: bool,
    /// Whether it reports the result.
    pub reported: bool,
    /// The result is its hit.
    pub hit: bool,
    /// The result would be its hit, and isn't inside.
    pub outside: bool,
    /// Its limit grows by the result, if it has a ratchet.
    pub gone: bool,
}

/// Returns whether the condition reports the result: it checks it, and the result is active and inside, and has one of its
/// states.
fn is_reported(checked: bool, condition: &GateCondition, found: &JudgedResult) -> bool
    ensures { result ≡ (not found.now.suppressed && checked
        && is_listed condition.now.states found.now.state
        && decided.is_inside condition.now.diff (judged_of found.now)) }
{
    !found.suppressed
        && checked
        && condition.states.lists(found.state)
        && is_inside(condition.diff, found)
}

/// Returns whether the result is a hit of the condition, its `diff` left aside.
fn would_hit(checked: bool, condition: &GateCondition, found: &JudgedResult) -> bool
    ensures { result ≡ (decided.asks_if checked condition.now (judged_of found.now)
        && is_listed condition.now.states found.now.state) }
{
    asks_if(checked, condition, found) && condition.states.lists(found.state)
}

/// Returns whether the limit of the condition grows by the result, which went away.
fn went_away(checked: bool, condition: &GateCondition, found: &JudgedResult) -> bool
    ensures { result ≡ (decided.is_absent found.now.state && found.now.is_gone
        && decided.asks_if checked condition.now (judged_of found.now)) }
{
    is_absent(found.state) && found.is_gone && asks_if(checked, condition, found)
}

/// Returns what the condition decides about the result; `checked` says whether it checks it.
pub(crate) fn outcome_if(checked: bool, condition: &GateCondition, found: &JudgedResult) -> Outcome
    ensures { result ≡ said.outcome_if checked condition.now (judged_of found.now) }
{
    let would = would_hit(checked, condition, found);
    let inside = is_inside(condition.diff, found);
    Outcome {
        checked,
        reported: is_reported(checked, condition, found),
        hit: would && inside,
        outside: would && !inside,
        gone: went_away(checked, condition, found),
    }
}

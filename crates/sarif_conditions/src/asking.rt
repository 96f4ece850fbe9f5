//! What a condition requires of a result.
ghost use Rattle.std.specs.Prelude.{◌≡◌};
ghost use Rattle.sarif_conditions.specs.Decided as said;
ghost use Rattle.sarif_conditions.specs.Judged.{judged_of};

use crate::judged::JudgedResult;
use sarif_change::Scope;
use sarif_model::State;
use sarif_policy::{GateCondition, Minimum, Rating};

/// Returns whether a state is `absent`.
pub(crate) fn is_absent(state: State) -> bool
    ensures { result ≡ said.is_absent state }
{
    match state {
        State::New | State::Unchanged | State::Updated => false,
        State::Absent => true,
    }
}

/// Returns whether a rating meets a minimum, if there is one.
fn meets_minimum(minimum: &Option<Minimum>, rating: &Rating) -> bool
    ensures { result ≡ said.meets_minimum minimum.now rating.now }
{
    match minimum {
        None => true,
        Some(minimum) => minimum.is_met(rating),
    }
}

/// Returns whether a result is inside the change in a scope, if there is one.
pub(crate) fn is_inside(diff: Option<Scope>, found: &JudgedResult) -> bool
    ensures { result ≡ said.is_inside diff (judged_of found.now) }
{
    match diff {
        None => true,
        Some(Scope::Lines) => found.in_lines,
        Some(Scope::Files) => found.in_files,
    }
}

/// Returns whether the result has what the condition requires: `checked`, which says whether the
/// condition checks it, is true, and the result is active and has a level and a rating that are
/// required.
pub(crate) fn asks_if(checked: bool, condition: &GateCondition, found: &JudgedResult) -> bool
    ensures { result ≡ said.asks_if checked condition.now (judged_of found.now) }
{
    !found.suppressed
        && checked
        && found.level.is_at_least(condition.level)
        && meets_minimum(&condition.minimum, found.rating)
}

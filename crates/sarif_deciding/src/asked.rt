//! What the conditions of a policy require.
ghost use Rattle.std.specs.Prelude.{◌≡◌};
ghost use Rattle.sarif_deciding.specs.Asked as said;

use sarif_change::Scope;
use sarif_policy::GateCondition;

/// Returns whether a condition has a minimum security severity.
pub(crate) fn rates(conditions: &[GateCondition]) -> bool
    ensures { result ≡ said.rates conditions.now }
{
    conditions
        .iter()
        .any(|condition| condition.minimum.is_some())
}

/// Returns whether the scopes are the same.
fn is_scope(scope: Scope, own: Scope) -> bool
    ensures { result ≡ said.is_scope scope own }
{
    match (scope, own) {
        (Scope::Lines, Scope::Lines) | (Scope::Files, Scope::Files) => true,
        (Scope::Lines, Scope::Files) | (Scope::Files, Scope::Lines) => false,
    }
}

/// Returns whether there is a scope and it is this one.
fn is_in_scope(scope: Scope, own: Option<Scope>) -> bool
    ensures { result ≡ said.is_in_scope scope own }
{
    match own {
        None => false,
        Some(own) => is_scope(scope, own),
    }
}

/// Returns whether a condition has `diff` in this scope.
pub(crate) fn asks_scope(scope: Scope, conditions: &[GateCondition]) -> bool
    ensures { result ≡ said.asks_scope scope conditions.now }
{
    conditions
        .iter()
        .any(|condition| is_in_scope(scope, condition.diff))
}

/// Returns whether a condition has a ratchet.
pub(crate) fn ratchets(conditions: &[GateCondition]) -> bool
    ensures { result ≡ said.ratchets conditions.now }
{
    conditions.iter().any(|condition| condition.ratchet)
}

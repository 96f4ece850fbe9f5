//! Reading what is inside a change.
ghost use Rattle.std.specs.Prelude.{◌≡◌};
ghost use Rattle.sarif_request.specs.Scoping.{scope_named};

use sarif_change::Scope;

/// Returns what is inside a change by this name, or `None` if there is no such name.
pub(crate) fn scope_named(name: &str) -> Option<Scope>
    ensures { result ≡ scope_named name.now }
{
    if name == "lines" {
        Some(Scope::Lines)
    } else if name == "files" {
        Some(Scope::Files)
    } else {
        None
    }
}

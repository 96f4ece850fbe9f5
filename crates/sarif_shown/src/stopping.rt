//! Which hits stop the change.
ghost use Rattle.std.specs.Prelude.{◌≡◌};
ghost use Rattle.sarif_shown.specs.Stopping as said;

use sarif_counts::Impact;

/// Which hits stop the change.
#[derive(Clone, Copy, Debug, PartialEq, Eq)]
pub enum Stopping {
    /// All of them. Without a policy it is so if there are more than allowed.
    EachHit,
    /// None of them. Without a policy it is so if there are no more than allowed.
    NoHit,
    /// The hits of conditions that fail. It is so with a policy.
    MarkedHit,
}

/// Returns whether a result that does this is a hit of a condition that fails.
fn is_marked(impact: Impact) -> bool
    ensures { result ≡ said.is_marked impact }
{
    matches!(impact, Impact::Stops)
}

impl Stopping {
    /// Returns whether a result that does this stops the change.
    pub fn stops(self, impact: Impact) -> bool
        ensures { result ≡ said.stops self impact }
    {
        match self {
            Stopping::EachHit => impact.is_hit(),
            Stopping::NoHit => false,
            Stopping::MarkedHit => is_marked(impact),
        }
    }
}

//! What reports are made by.
ghost use Rattle.std.specs.Prelude.{◌≡◌};
ghost use Rattle.sarif_findings.specs.Reported.{are_shown, is_among};

use sarif_model::{Level, Sequence, State, Text};
use sarif_options::Policy;

/// Which of the reported results reports show. A reported result is an active one whose baseline state is in the policy.
#[derive(Clone, Copy, Debug, PartialEq, Eq)]
pub enum Show {
    /// Only the hits among them.
    Hits,
    /// All of them.
    All,
}

impl Show {
    /// Returns whether a reported result is shown that is a hit, or is none.
    pub fn has(self, hit: bool) -> bool
        ensures { result ≡ is_among self hit }
    {
        match self {
            Show::Hits => hit,
            Show::All => true,
        }
    }
}

/// What reports depend on, besides the merged log.
#[derive(Debug, Drop)]
pub struct Reporting {
    /// The policy of the gate: which results are reported, and which of them are hits.
    pub policy: Policy,
    /// Which of the reported results are shown.
    pub show: Show,
    /// The roots. If a path begins with some of them, the first in this order is removed from it, once. An empty root
    /// is ignored.
    pub roots: Sequence<Text>,
}

impl Reporting {
    /// Returns whether an active result of this state and level is shown.
    pub fn shows(&self, state: State, level: Level) -> bool
        ensures { result ≡ are_shown self.now state level }
    {
        self.policy.states.lists(state) && self.show.has(level.is_at_least(self.policy.fail_on))
    }
}

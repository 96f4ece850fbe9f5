//! What the gate fails on.
ghost use Rattle.std.specs.Prelude.{◌≡◌, ◌&&◌};
ghost use Rattle.sarif_options.specs.Policy.{default_policy, are_hits, is_listed};

use sarif_model::{Level, State};

/// The baseline states whose results may be hits.
#[derive(Clone, Copy, Debug, PartialEq, Eq)]
pub struct States {
    /// Baseline results that no current result matches.
    pub absent: bool,
    /// Results that match no baseline result: the state `new`.
    pub fresh: bool,
    /// Results whose baseline match has the same kind, level, message and place.
    pub unchanged: bool,
    /// Results whose baseline match differs in one of these.
    pub updated: bool,
}

impl States {
    /// Returns whether results of this state may be hits.
    pub fn lists(self, state: State) -> bool
        ensures { result ≡ is_listed self state }
    {
        match state {
            State::New => self.fresh,
            State::Unchanged => self.unchanged,
            State::Updated => self.updated,
            State::Absent => self.absent,
        }
    }
}

/// When the gate fails: where more than `max` active results of the listed states are at least of
/// level `fail_on`.
#[derive(Clone, Copy, Debug, PartialEq, Eq)]
pub struct Policy {
    /// The minimum level of a hit.
    pub fail_on: Level,
    /// The states that count.
    pub states: States,
    /// The number of hits to allow.
    pub max: u32,
}

impl Policy {
    /// Returns whether an active result of this state and level is a hit.
    pub fn counts(self, state: State, level: Level) -> bool
        ensures { result ≡ are_hits self state level }
    {
        self.states.lists(state) && level.is_at_least(self.fail_on)
    }
}

impl Default for Policy {
    ghost is_default = { λ policy. policy ≡ default_policy };

    /// Fails on each new or updated result of level `error`.
    fn default() -> Policy {
        Policy {
            fail_on: Level::Error,
            states: States {
                absent: false,
                fresh: true,
                unchanged: false,
                updated: true,
            },
            max: 0,
        }
    }
}

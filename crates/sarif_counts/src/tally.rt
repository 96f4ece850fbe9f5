//! How many results of one baseline state there are, by level and suppression.
ghost use Rattle.std.specs.Prelude.{◌≡◌, ◌+◌, ◌<◌, ◌≤◌, ◌^◌};
ghost use Rattle.sarif_counts.specs.Internal.Both.{AreOfBothLevels, AreOfBothSides};
ghost use Rattle.sarif_counts.specs.Hits.{severe_of};
ghost use Rattle.sarif_counts.specs.Tally.{at_level, level_total, at_side, tally_total, AddsAtLevel, AddsAtSide};

use sarif_model::Level;

/// A number for each level.
#[derive(Clone, Copy, Debug, PartialEq, Eq)]
pub(crate) struct ByLevel {
    pub(crate) error: u32,
    pub(crate) warning: u32,
    pub(crate) note: u32,
    pub(crate) none: u32,
}

impl ByLevel {
    pub(crate) const ZERO: ByLevel = ByLevel {
        error: 0,
        warning: 0,
        note: 0,
        none: 0,
    };

    pub(crate) fn get(self, level: Level) -> u32
        ensures { result ≡ at_level self level }
    {
        match level {
            Level::NoLevel => self.none,
            Level::Note => self.note,
            Level::Warning => self.warning,
            Level::Error => self.error,
        }
    }

    fn add(&mut self, level: Level)
        requires { level_total self.old + 1 < 2 ^ 32 }
        ensures one { AddsAtLevel self.old self.new level }
        ensures total { level_total self.new ≡ level_total self.old + 1 }
    {
        match level {
            Level::NoLevel => self.none += 1,
            Level::Note => self.note += 1,
            Level::Warning => self.warning += 1,
            Level::Error => self.error += 1,
        }
    }

    /// The numbers of both together.
    fn plus(self, other: ByLevel) -> ByLevel
        requires { level_total self + level_total other < 2 ^ 32 }
        ensures both { AreOfBothLevels self other result }
        ensures total { level_total result ≡ level_total self + level_total other }
    {
        ByLevel {
            error: self.error + other.error,
            warning: self.warning + other.warning,
            note: self.note + other.note,
            none: self.none + other.none,
        }
    }

    /// How many are at least of this level.
    pub(crate) fn at_least(self, least: Level) -> u32
        requires { level_total self < 2 ^ 32 }
        ensures sum { result ≡ severe_of (at_level self) least }
        ensures bound { result ≤ level_total self }
    {
        match least {
            Level::NoLevel => self.error + self.warning + self.note + self.none,
            Level::Note => self.error + self.warning + self.note,
            Level::Warning => self.error + self.warning,
            Level::Error => self.error,
        }
    }

    /// How many there are.
    pub(crate) fn total(self) -> u32
        requires { level_total self < 2 ^ 32 }
        ensures { result ≡ level_total self }
    {
        self.error + self.warning + self.note + self.none
    }
}

/// The results of one state: the active and the suppressed ones.
#[derive(Clone, Copy, Debug, PartialEq, Eq)]
pub(crate) struct Tally {
    pub(crate) active: ByLevel,
    pub(crate) suppressed: ByLevel,
}

impl Tally {
    pub(crate) const ZERO: Tally = Tally {
        active: ByLevel::ZERO,
        suppressed: ByLevel::ZERO,
    };

    pub(crate) fn side(self, suppressed: bool) -> ByLevel
        ensures { result ≡ at_side self suppressed }
    {
        if suppressed {
            self.suppressed
        } else {
            self.active
        }
    }

    pub(crate) fn add(&mut self, level: Level, suppressed: bool)
        requires { tally_total self.old + 1 < 2 ^ 32 }
        ensures one { AddsAtSide self.old self.new level suppressed }
        ensures total { tally_total self.new ≡ tally_total self.old + 1 }
    {
        if suppressed {
            self.suppressed.add(level);
        } else {
            self.active.add(level);
        }
    }

    /// The results of both together.
    pub(crate) fn plus(self, other: Tally) -> Tally
        requires { tally_total self + tally_total other < 2 ^ 32 }
        ensures both { AreOfBothSides self other result }
        ensures total { tally_total result ≡ tally_total self + tally_total other }
    {
        Tally {
            active: self.active.plus(other.active),
            suppressed: self.suppressed.plus(other.suppressed),
        }
    }
}

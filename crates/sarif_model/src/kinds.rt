//! The values of `level`, `kind`, `baselineState` and a suppression's `status`, as types.
ghost use Rattle.std.specs.Prelude.{◌≡◌};
ghost use Rattle.sarif_model.specs.Level.{level_name, level_named, is_at_least};
ghost use Rattle.sarif_model.specs.Level as said;
ghost use Rattle.sarif_model.specs.Kind.{kind_name, kind_named};
ghost use Rattle.sarif_model.specs.State.{state_name, state_named};
ghost use Rattle.sarif_model.specs.Status.{status_name, status_named, is_accepted};

/// The severity of a result, in rising order (SARIF 2.1.0, "level property").
#[derive(Clone, Copy, Debug, PartialEq, Eq, PartialOrd, Ord, Hash)]
pub enum Level {
    /// The string `none`: severity does not apply, for example if the kind is not `fail`.
    NoLevel,
    /// The string `note`: a minor problem, or a possible improvement.
    Note,
    /// The string `warning`: a problem.
    Warning,
    /// The string `error`: a serious problem.
    Error,
}

impl Level {
    /// The text of this level.
    pub fn name(self) -> &'static str
        ensures { result.now ≡ level_name self }
    {
        match self {
            Level::NoLevel => "none",
            Level::Note => "note",
            Level::Warning => "warning",
            Level::Error => "error",
        }
    }

    /// Returns the level whose string is `name`, or `None` if there is none.
    pub fn from_name(name: &str) -> Option<Level>
        ensures { result ≡ level_named name.now }
    {
        if name == Level::NoLevel.name() {
            Some(Level::NoLevel)
        } else if name == Level::Note.name() {
            Some(Level::Note)
        } else if name == Level::Warning.name() {
            Some(Level::Warning)
        } else if name == Level::Error.name() {
            Some(Level::Error)
        } else {
            None
        }
    }

    /// Returns whether this level is the level `least` or a greater one.
    pub fn is_at_least(self, least: Level) -> bool
        ensures { result ≡ is_at_least least self }
    {
        least.severity() <= self.severity()
    }

    fn severity(self) -> u8
        ensures { result ≡ said.severity self }
    {
        match self {
            Level::NoLevel => 0,
            Level::Note => 1,
            Level::Warning => 2,
            Level::Error => 3,
        }
    }
}

/// The outcome of a rule for a result (SARIF 2.1.0, "kind property").
#[derive(Clone, Copy, Debug, PartialEq, Eq, PartialOrd, Ord, Hash)]
pub enum Kind {
    /// The string `pass`: the rule was evaluated, and no problem was found.
    Pass,
    /// The string `open`: the rule was evaluated, and it could not be decided whether there is a problem.
    Undecided,
    /// The string `informational`: the result is only information.
    Informational,
    /// The string `notApplicable`: the rule was not evaluated, because it does not apply.
    NotApplicable,
    /// The string `review`: a person needs to check whether there is a problem.
    Review,
    /// The string `fail`: the rule was evaluated, and a problem was found. A result without a kind has this one.
    Fail,
}

impl Kind {
    /// The text of this kind.
    pub fn name(self) -> &'static str
        ensures { result.now ≡ kind_name self }
    {
        match self {
            Kind::Pass => "pass",
            Kind::Undecided => "open",
            Kind::Informational => "informational",
            Kind::NotApplicable => "notApplicable",
            Kind::Review => "review",
            Kind::Fail => "fail",
        }
    }

    /// Returns the kind whose string is `name`, or `None` if there is none.
    pub fn from_name(name: &str) -> Option<Kind>
        ensures { result ≡ kind_named name.now }
    {
        if name == Kind::Pass.name() {
            Some(Kind::Pass)
        } else if name == Kind::Undecided.name() {
            Some(Kind::Undecided)
        } else if name == Kind::Informational.name() {
            Some(Kind::Informational)
        } else if name == Kind::NotApplicable.name() {
            Some(Kind::NotApplicable)
        } else if name == Kind::Review.name() {
            Some(Kind::Review)
        } else if name == Kind::Fail.name() {
            Some(Kind::Fail)
        } else {
            None
        }
    }
}

/// The state of a result relative to the baseline (SARIF 2.1.0, "baselineState property").
#[derive(Clone, Copy, Debug, PartialEq, Eq, PartialOrd, Ord, Hash)]
pub enum State {
    /// The string `new`: it matches no baseline result.
    New,
    /// The string `unchanged`: the matching baseline result has the same kind, level, message and place.
    Unchanged,
    /// The string `updated`: the matching baseline result differs in one of these.
    Updated,
    /// The string `absent`: a baseline result that no current result matches.
    Absent,
}

impl State {
    /// The text of this baseline state.
    pub fn name(self) -> &'static str
        ensures { result.now ≡ state_name self }
    {
        match self {
            State::New => "new",
            State::Unchanged => "unchanged",
            State::Updated => "updated",
            State::Absent => "absent",
        }
    }

    /// Returns the baseline state whose string is `name`, or `None` if there is none.
    pub fn from_name(name: &str) -> Option<State>
        ensures { result ≡ state_named name.now }
    {
        if name == State::New.name() {
            Some(State::New)
        } else if name == State::Unchanged.name() {
            Some(State::Unchanged)
        } else if name == State::Updated.name() {
            Some(State::Updated)
        } else if name == State::Absent.name() {
            Some(State::Absent)
        } else {
            None
        }
    }
}

/// How far a suppression was reviewed (SARIF 2.1.0, suppression object, "status property").
#[derive(Clone, Copy, Debug, PartialEq, Eq, PartialOrd, Ord, Hash)]
pub enum Status {
    /// The string `accepted`: the suppression is in effect. A suppression without a status has this one.
    Accepted,
    /// The string `underReview`: the suppression is not decided, and the result is active.
    UnderReview,
    /// The string `rejected`: the suppression was rejected, and the result is active.
    Rejected,
}

impl Status {
    /// The text of this status.
    pub fn name(self) -> &'static str
        ensures { result.now ≡ status_name self }
    {
        match self {
            Status::Accepted => "accepted",
            Status::UnderReview => "underReview",
            Status::Rejected => "rejected",
        }
    }

    /// Returns the status whose string is `name`, or `None` if there is none.
    pub fn from_name(name: &str) -> Option<Status>
        ensures { result ≡ status_named name.now }
    {
        if name == Status::Accepted.name() {
            Some(Status::Accepted)
        } else if name == Status::UnderReview.name() {
            Some(Status::UnderReview)
        } else if name == Status::Rejected.name() {
            Some(Status::Rejected)
        } else {
            None
        }
    }

    /// Returns whether a suppression of this status is in effect.
    pub fn is_accepted(self) -> bool
        ensures { result ≡ is_accepted self }
    {
        match self {
            Status::Accepted => true,
            Status::UnderReview | Status::Rejected => false,
        }
    }
}

//! Which options go together.
ghost use Rattle.std.specs.Prelude.{◌≡◌};
ghost use Rattle.sarif_request.specs.Sentences.{misfit_text};
ghost use Rattle.sarif_request.specs.Together as said;

use sarif_entries::is_day;

/// Which options are given of those that need each other, and the dates among their values.
#[derive(Clone, Copy, Debug)]
pub struct GivenOptions {
    /// The suppression file.
    pub suppress: bool,
    /// The new suppression file.
    pub suppress_out: bool,
    /// Whether hits get entries.
    pub accept: bool,
    /// Whether entries are dropped.
    pub prune: bool,
    /// The justification of added entries.
    pub reason: bool,
    /// The expiry date of added entries as YYYYMMDD.
    pub until: Option<u32>,
    /// The places of accepted hits.
    pub at: bool,
    /// The rules of accepted hits.
    pub rule: bool,
    /// Today's date as YYYYMMDD.
    pub today: Option<u32>,
    /// The list of unused entries.
    pub unused: bool,
    /// The known log.
    pub known: bool,
    /// Whether new hits become known too.
    pub adopt: bool,
    /// The diff.
    pub diff: bool,
    /// What is inside the change of the diff.
    pub diff_scope: bool,
    /// Whether absent results may be hits.
    pub absent: bool,
    /// The policy.
    pub policy: bool,
    /// The minimum level of a hit, if the arguments have it: it has a default.
    pub fail_on: bool,
    /// The states of a hit, if the arguments have them: they have a default.
    pub states: bool,
    /// How many hits are allowed, if the arguments say it: there is a default.
    pub max: bool,
}

/// Why options don't go together.
#[derive(Clone, Copy, Debug, PartialEq, Eq)]
pub enum Misfit {
    /// There is no file for the entries of accepted hits.
    AcceptNeedsFile,
    /// There is no file for the entries that are kept.
    PruneNeedsFile,
    /// Nothing is changed in the new suppression file.
    FileNeedsChange,
    /// There are no entries to drop.
    PruneNeedsEntries,
    /// There are no entries to justify.
    ReasonNeedsAccept,
    /// No hits are accepted, at these places or elsewhere.
    PlaceNeedsAccept,
    /// No hits are accepted, of these rules or others.
    RuleNeedsAccept,
    /// There are no entries to list.
    UnusedNeedsEntries,
    /// A known log does not know what the same merge accepts.
    KnownWithAccept,
    /// There is no known log.
    AdoptNeedsKnown,
    /// There are no entries that could expire.
    UntilNeedsAccept,
    /// An expiry date needs today's date.
    UntilNeedsToday,
    /// The expiry date is not a date.
    UntilIsNoDate,
    /// The expiry date is before today's date.
    UntilIsPast,
    /// There is no change.
    ScopeNeedsDiff,
    /// No change has an absent result.
    AbsentWithDiff,
    /// Each condition of a policy has its own level.
    LevelWithPolicy,
    /// Each condition of a policy has its own states.
    StatesWithPolicy,
    /// Each condition of a policy has its own limit.
    LimitWithPolicy,
    /// Each condition of a policy says itself whether it is on the change, and in which scope.
    ScopeWithPolicy,
}

impl Misfit {
    /// Returns the sentence for users, which names the options.
    pub fn sentence(self) -> &'static str
        ensures { result.now ≡ misfit_text self }
    {
        match self {
            Misfit::AcceptNeedsFile => "--accept needs --suppress-out",
            Misfit::PruneNeedsFile => "--prune needs --suppress-out",
            Misfit::FileNeedsChange => "--suppress-out needs --accept, --prune or both",
            Misfit::PruneNeedsEntries => "--prune needs --suppress",
            Misfit::ReasonNeedsAccept => "--reason needs --accept",
            Misfit::PlaceNeedsAccept => "--at needs --accept",
            Misfit::RuleNeedsAccept => "--rule needs --accept",
            Misfit::UnusedNeedsEntries => "--unused needs --suppress",
            Misfit::KnownWithAccept =>
                "--known and --accept cannot be used together: the next merge knows what was accepted",
            Misfit::AdoptNeedsKnown => "--adopt needs --known",
            Misfit::UntilNeedsAccept => "--until needs --accept",
            Misfit::UntilNeedsToday => "--until needs --today",
            Misfit::UntilIsNoDate =>
                "invalid value for '--until <YYYYMMDD>': expected a date as YYYYMMDD, for example \
                 20251128",
            Misfit::UntilIsPast => "the date of --until is before the date of --today",
            Misfit::ScopeNeedsDiff => "--diff-scope needs --diff",
            Misfit::AbsentWithDiff =>
                "--states with absent and --diff cannot be used together: no change has an absent \
                 result",
            Misfit::LevelWithPolicy =>
                "--fail-on and --policy cannot be used together: each condition has its own level",
            Misfit::StatesWithPolicy =>
                "--states and --policy cannot be used together: each condition has its own states",
            Misfit::LimitWithPolicy =>
                "--max and --policy cannot be used together: each condition has its own max",
            Misfit::ScopeWithPolicy =>
                "--diff-scope and --policy cannot be used together: each condition has its own diff",
        }
    }
}

/// Returns why options don't go together, or `None` if they do.
pub(crate) fn misfit_of(given: &GivenOptions) -> Option<Misfit>
    ensures { result ≡ said.misfit_of given.now }
{
    upkeep_misfit(given)
        .or(until_misfit(given))
        .or(gate_misfit(given))
}

/// Returns why the options of the gate or of the change don't go together, or `None` if they do.
fn gate_misfit(given: &GivenOptions) -> Option<Misfit>
    ensures { result ≡ said.gate_misfit given.now }
{
    policy_misfit(given).or(diff_misfit(given))
}

/// Returns why options of the gate don't go together with a policy, or `None` if they do.
fn policy_misfit(given: &GivenOptions) -> Option<Misfit>
    ensures { result ≡ said.policy_misfit given.now }
{
    if given.policy && given.fail_on {
        Some(Misfit::LevelWithPolicy)
    } else if given.policy && given.states {
        Some(Misfit::StatesWithPolicy)
    } else if given.policy && given.max {
        Some(Misfit::LimitWithPolicy)
    } else if given.policy && given.diff_scope {
        Some(Misfit::ScopeWithPolicy)
    } else {
        None
    }
}

/// Returns why the options of the change don't go together, or `None` if they do.
fn diff_misfit(given: &GivenOptions) -> Option<Misfit>
    ensures { result ≡ said.diff_misfit given.now }
{
    if given.diff_scope && !given.diff {
        Some(Misfit::ScopeNeedsDiff)
    } else if given.diff && given.absent {
        Some(Misfit::AbsentWithDiff)
    } else {
        None
    }
}

/// Returns why the options of the outputs for later merges don't go together, or `None` if they do.
fn upkeep_misfit(given: &GivenOptions) -> Option<Misfit>
    ensures { result ≡ said.upkeep_misfit given.now }
{
    if given.accept && !given.suppress_out {
        Some(Misfit::AcceptNeedsFile)
    } else if given.prune && !given.suppress_out {
        Some(Misfit::PruneNeedsFile)
    } else if given.suppress_out && !(given.accept || given.prune) {
        Some(Misfit::FileNeedsChange)
    } else if given.prune && !given.suppress {
        Some(Misfit::PruneNeedsEntries)
    } else if given.reason && !given.accept {
        Some(Misfit::ReasonNeedsAccept)
    } else if given.at && !given.accept {
        Some(Misfit::PlaceNeedsAccept)
    } else if given.rule && !given.accept {
        Some(Misfit::RuleNeedsAccept)
    } else if given.unused && !given.suppress {
        Some(Misfit::UnusedNeedsEntries)
    } else if given.known && given.accept {
        Some(Misfit::KnownWithAccept)
    } else if given.adopt && !given.known {
        Some(Misfit::AdoptNeedsKnown)
    } else {
        None
    }
}

/// Returns why the expiry date of added entries doesn't fit, or `None` if it does or there is none.
fn until_misfit(given: &GivenOptions) -> Option<Misfit>
    ensures { result ≡ said.until_misfit given.now }
{
    if given.until.is_some() && !given.accept {
        Some(Misfit::UntilNeedsAccept)
    } else {
        date_misfit(given.until, given.today)
    }
}

/// Returns why an expiry date does not fit today's date, or `None` if it does or there is none.
fn date_misfit(until: Option<u32>, today: Option<u32>) -> Option<Misfit>
    ensures { result ≡ said.date_misfit until today }
{
    let until = until?;
    let Some(today) = today else {
        return Some(Misfit::UntilNeedsToday);
    };
    if !is_day(u64::from(until)) {
        Some(Misfit::UntilIsNoDate)
    } else if until < today {
        Some(Misfit::UntilIsPast)
    } else {
        None
    }
}

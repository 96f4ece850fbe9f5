//! What is expected instead of the invalid value: the table of sentences.
use crate::checks::{CONDITIONS, FIFTH_NAMES, FIRST_NAMES, FOURTH_NAMES, SECOND_NAMES};
use crate::policy_wanted::PolicyWanted;
use json_parts::MAX_DEPTH;
use sarif_model::{
    FIRST_DAY, LAST_DAY, MOST_BYTES, MOST_ENTRIES, MOST_RESULTS, MOST_RUNS, MOST_SOURCES,
};
use std::fmt;

/// What is expected of a value, or of a whole source.
#[derive(Clone, Copy, Debug, PartialEq, Eq)]
pub(crate) enum Wanted {
    Json,
    Log,
    Runs,
    LogVersion,
    Run,
    Success,
    NoFiles,
    Rules,
    Location,
    Suppression,
    Member,
    Object,
    Array,
    Objects,
    Text,
    Texts,
    TextMap,
    TextOrNull,
    Level,
    Kind,
    Guid,
    SuppressionKind,
    Status,
    Present,
    Index,
    Extension,
    Rule,
    Invocation,
    Artifact,
    FileVersion,
    Entries,
    Entry,
    FirstMembers,
    SecondMembers,
    FourthMembers,
    /// Of version 5.
    FifthMembers,
    Day,
    /// Of `max`.
    Limit,
    Condition,
    Today,
    /// In a policy.
    Policy(PolicyWanted),
    HitPlace,
    HitRule,
    Section,
    TwoParents,
    HunkLine,
    FileName,
    SubmoduleFiles,
    FewSections,
    FewRuns,
    FewResults,
    FewEntries,
    FewBytes,
    Readable,
    Writable,
    Memory,
    Threads,
}

impl Wanted {
    /// The sentence that says what is expected; empty for the sentences that contain a limit, which `fmt` writes.
    fn sentence(self) -> &'static str {
        match self {
            Wanted::Log => "an object with runs, an array or null",
            Wanted::Runs => "an array of runs, or null",
            Wanted::LogVersion => "the string 2.1.0",
            Wanted::Run => "an object with a tool whose driver has a name",
            Wanted::Success => "a run with results whose analysis was successful",
            Wanted::NoFiles => "an empty object, or no such member",
            Wanted::Rules => "extensions and rules that are objects, each rule with an id",
            Wanted::Location => "a location or an artifact as SARIF 2.1.0 defines it",
            Wanted::Suppression => "suppressions that are objects with a kind",
            Wanted::Member => "members of the types that SARIF 2.1.0 defines",
            Wanted::Object => "an object",
            Wanted::Array => "an array",
            Wanted::Objects => "an array of objects",
            Wanted::Text => "a string",
            Wanted::Texts => "an array of strings",
            Wanted::TextMap => "an object whose members are strings or null",
            Wanted::TextOrNull => "a string or null",
            Wanted::Level => "error, warning, note or none",
            Wanted::Kind => "pass, open, informational, notApplicable, review or fail",
            Wanted::Guid => "a GUID, for example 0f14d0ab-9605-4a62-a9e4-5ed26688389b",
            Wanted::SuppressionKind => "inSource or external",
            Wanted::Status => "accepted, underReview or rejected",
            Wanted::Present => {
                "no baselineState, or one other than absent: a log may contain only current \
                 results"
            }
            Wanted::Extension => "the index of one of the extensions of the tool, or -1",
            Wanted::Rule => "the index of one of the rules of the component, or -1",
            Wanted::Invocation => "the index of one of the invocations of the run, or -1",
            Wanted::Artifact => "the index of one of the artifacts of the run, or -1",
            Wanted::FileVersion => "the integer 1, 2, 4 or 5, written without a fraction",
            Wanted::Entries => "an object with an array suppressions",
            Wanted::Entry => "an object with only the members that its version has",
            Wanted::FirstMembers => FIRST_NAMES,
            Wanted::SecondMembers => SECOND_NAMES,
            Wanted::FourthMembers => FOURTH_NAMES,
            Wanted::FifthMembers => FIFTH_NAMES,
            Wanted::Condition => CONDITIONS,
            Wanted::Today => "today's date, since the entry has an expiry date",
            Wanted::HitPlace => {
                "the place of a hit as --text prints it, with or without its column or its line"
            }
            Wanted::HitRule => {
                "the rule of a hit as --text prints it in brackets, or the empty string for a hit \
                 without a rule"
            }
            Wanted::Section => "a diff as git diff writes it, with a section for each changed file",
            Wanted::TwoParents =>
                "a diff of two commits: one of several parents has no lines of its own",
            Wanted::HunkLine => {
                "the header of a hunk, or as many of its old and new lines as the header says, one of \
                 them removed or added"
            }
            Wanted::FileName => "the name of one file, quoted as git quotes it",
            Wanted::SubmoduleFiles => "the changed files of the submodule",
            Wanted::FewSections => "at most 1000000 sections and 1000000 hunks",
            Wanted::Readable => "a file that exists and can be read to its end",
            Wanted::Writable => "a file that can be written, and enough room on the disk",
            Wanted::Memory => "enough memory for the inputs and the outputs",
            Wanted::Threads => "as many threads as --workers requests",
            Wanted::Json
            | Wanted::Index
            | Wanted::Day
            | Wanted::Limit
            | Wanted::Policy(_)
            | Wanted::FewRuns
            | Wanted::FewResults
            | Wanted::FewEntries
            | Wanted::FewBytes => "",
        }
    }
}

impl fmt::Display for Wanted {
    fn fmt<W: fmt::Write>(&self, f: &mut fmt::Formatter<W>) -> fmt::Result {
        match *self {
            Wanted::Json => write!(f, "JSON in UTF-8, nested at most {MAX_DEPTH} deep"),
            Wanted::Index => write!(f, "an integer from -1 to {}", u32::MAX),
            Wanted::Day => write!(
                f,
                "a date as the integer YYYYMMDD, from {FIRST_DAY} to {LAST_DAY}"
            ),
            Wanted::Limit => write!(f, "an integer from 1 to {}", u32::MAX),
            Wanted::Policy(wanted) => write!(f, "{wanted}"),
            Wanted::FewRuns => write!(
                f,
                "at most {MOST_SOURCES} logs and {MOST_SOURCES} baselines, with at most \
                 {MOST_RUNS} runs and {MOST_RESULTS} results in all"
            ),
            Wanted::FewResults => write!(f, "at most {MOST_RESULTS} results"),
            Wanted::FewEntries => write!(f, "at most {MOST_ENTRIES} entries"),
            Wanted::FewBytes => write!(f, "at most {MOST_BYTES} bytes"),
            wanted => f.write_str(wanted.sentence()),
        }
    }
}

//! What to do about an error: the table of sentences.
use crate::hint::Hint;
use sarif_model::{At, Cause, Fault, MergeFault, Source};

/// What to do about an input past a limit.
const SPLIT: &str = "split the analysis, or drop what you don't need";

/// What to do about a diff past a limit.
const NARROW: &str = "compare fewer commits or fewer files: git diff A B -- PATH";

/// What to do about a place or a rule that fits no chosen hit.
const COPY: &str = "copy it from a line of --text; if you pass --at and --rule, one of each must \
    fit the same hit";

/// Returns what to do about an output for later merges that would be too large for them: the known log or the new
/// suppression file.
pub(crate) fn advice_on_output(at: At) -> &'static str {
    match at {
        At::Whole(Source::Known) => {
            "merge fewer logs in one call, and write a known log for each of these merges"
        }
        _ => {
            "accept fewer hits in one call, pass --prune, or write an entry by hand that matches \
             many of them"
        }
    }
}

/// What to do about a policy past a limit.
const FEWER: &str = "write fewer conditions: one condition may have many filters";

/// Returns what to do about a log, a suppression file or a policy of the wrong version. If `is_missing` is set, it has
/// no `version`.
fn advice_on_version(at: At, is_missing: bool) -> &'static str {
    match (at, is_missing) {
        (At::Whole(Source::Suppress), true) => "add \"version\": 4 to the file",
        (At::Whole(Source::Suppress), false) => {
            "write the file in version 4, with \"version\": 4"
        }
        (At::Whole(Source::Policy), true) => "add \"version\": 1 to the file",
        (At::Whole(Source::Policy), false) => { "write the file in version 1, with \"version\": 1" }
        (_, true) => {
            "if the file is SARIF 2.1.0, add \"version\": \"2.1.0\" to it; otherwise configure \
             the analyser to write SARIF 2.1.0"
        }
        (_, false) => "configure the analyser to write SARIF 2.1.0, or convert the log to it",
    }
}

/// Returns what to do about a file that is not JSON.
fn advice_on_json(at: At) -> &'static str {
    match at {
        At::Whole(Source::Policy) => "fix the file there; a policy is one JSON object in UTF-8",
        _ => {
            "fix the file there, or check that the analyser ended normally and wrote the whole \
             file"
        }
    }
}

/// Returns what to do about an input that is past a limit on what it holds.
fn advice_on_size(at: At) -> &'static str {
    match at {
        At::Whole(Source::Policy) => FEWER,
        At::Whole(Source::Diff) | At::Line(_) => NARROW,
        _ => SPLIT,
    }
}

/// Returns what to do about an error in a policy.
fn advice_on_policy(fault: Fault) -> &'static str {
    match fault {
        Fault::NotPolicy => {
            "check that you passed the right file; a policy has an array conditions"
        }
        Fault::NoCondition => "add a condition; without one, the gate would always pass",
        Fault::BadFilter => "fix the filter, or validate the file against its JSON Schema",
        Fault::EmptyFilter => "add a member; without one, the filter would match every result",
        Fault::SameName => "give each condition its own name",
        Fault::NeedsDiff => {
            "pass the diff of the change with --diff, or remove diff from the condition"
        }
        _ => "fix the condition, or validate the file against its JSON Schema",
    }
}

/// Returns what to do about an error in what was read.
fn advice_on_fault(fault: Fault, at: At, hint: Hint) -> &'static str {
    match fault {
        Fault::NotJson => advice_on_json(at),
        Fault::NotLog => {
            "check that you passed the right file, and that the analyser writes SARIF 2.1.0"
        }
        Fault::WrongVersion => advice_on_version(at, hint == Hint::Missing),
        Fault::BadRun | Fault::BadRules => {
            "report it to the developers of the analyser, or fix the run before the merge"
        }
        Fault::ExternalProperties => {
            "if the other files hold no results, artifacts, invocations, driver or extensions, \
             pass --allow-external-properties; otherwise drop the references, if you don't need \
             what is in those files: jq 'del(.runs[].externalPropertyFileReferences)' LOG > \
             NEW_LOG"
        }
        Fault::BadIndex
        | Fault::BadLevel
        | Fault::BadKind
        | Fault::BadGuid
        | Fault::BadFingerprint
        | Fault::BadLocation
        | Fault::BadSuppression
        | Fault::BadMember => {
            "report it to the developers of the analyser, or fix or drop the member before the \
             merge"
        }
        Fault::AbsentInput => {
            "pass the file with --baseline, or merge the analyser's own log instead"
        }
        Fault::TooMany => advice_on_size(at),
        Fault::NotList => {
            "check that you passed the right file; a suppression file has an array suppressions"
        }
        Fault::BadEntry => "fix the entry, or validate the file against its JSON Schema",
        Fault::EmptyMatch => "add a condition; without one, the entry would match every result",
        Fault::NeedsToday => "pass today's date as YYYYMMDD: --today \"$(date -u +%Y%m%d)\"",
        Fault::NotSuccessful => {
            "run the analysis again, or read the analyser's own output to see what failed"
        }
        Fault::NoHit => COPY,
        Fault::NoChange => {
            "check that git diff succeeded, with set -o pipefail and the history fetched \
             (fetch-depth: 0); a change without files needs no gate"
        }
        Fault::Combined => "compare two commits: git diff A B",
        Fault::BadHunk => {
            "pass the diff as git diff writes it, whole and without colours; --word-diff writes \
             no lines"
        }
        Fault::BadHeader => "pass the diff as git diff writes it, with the names of its files",
        Fault::Submodule => "pass --submodule=diff to git diff, or --ignore-submodules",
        Fault::NotPolicy
        | Fault::NoCondition
        | Fault::BadCondition
        | Fault::BadFilter
        | Fault::EmptyFilter
        | Fault::SameName
        | Fault::NeedsDiff => advice_on_policy(fault),
    }
}

/// Returns the sentence that says what to do about an error, if that follows from the hint alone.
fn advice_by_hint(hint: Hint) -> Option<&'static str> {
    match hint {
        Hint::None | Hint::Missing => None,
        Hint::MergedLog => Some("this is a merged log; pass the logs of the analysers"),
        Hint::SuppressionFile => Some("this is a suppression file; pass it with --suppress"),
        Hint::Policy => Some("this is a policy; pass it with --policy"),
        Hint::OtherJson => Some(
            "this is JSON, but not a SARIF log: check that you passed the right file, and that the \
             analyser writes SARIF 2.1.0",
        ),
        Hint::Form(form) => Some(form.advice()),
        Hint::Folder => Some("pass the file itself, not the folder that it is in"),
    }
}

/// Returns the sentence that says what to do about an error, by what was found in the source.
pub(crate) fn advice_on(fault: &MergeFault, hint: Hint) -> &'static str {
    if let Some(advice) = advice_by_hint(hint) {
        return advice;
    }
    match fault.cause {
        Cause::Of(wrong) => advice_on_fault(wrong, fault.at, hint),
        Cause::TooLong => advice_on_size(fault.at),
        Cause::ReadFailed => "check that the file exists, is not a folder and is readable",
        Cause::WriteFailed => {
            "check that the folder exists, that you may write there, and that the disk has room"
        }
        Cause::OutOfMemory => "make more memory available, or merge fewer logs in one call",
        Cause::NoWorker => "lower --workers, or allow the program to start more threads",
    }
}

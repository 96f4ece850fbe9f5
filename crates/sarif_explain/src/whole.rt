//! The error in a source, by the place of the error.
use crate::checks::{file_checks, log_checks};
use crate::entry::mismatch_of_entry;
use crate::mismatch::{Found, Mismatch, mismatch_in};
use crate::place::JsonPlace;
use crate::policy::{mismatch_in_policy, mismatch_of_policy};
use crate::policy_wanted::PolicyWanted;
use crate::run::mismatch_of_run;
use crate::single::mismatch_of_result;
use crate::wanted::Wanted;
use sarif_model::{At, Cause, Fault, MergeFault, Source};
use serde_json::Value;
use std::alloc::{AllocError, Global};

/// Returns what is expected at the place of that error.
fn wanted_at(at: At, fault: Fault) -> Wanted {
    match fault {
        Fault::NotJson => Wanted::Json,
        Fault::NotLog => Wanted::Log,
        Fault::WrongVersion => match at {
            At::Whole(Source::Suppress) => Wanted::FileVersion,
            At::Whole(Source::Policy) => Wanted::Policy(PolicyWanted::Version),
            _ => Wanted::LogVersion,
        },
        Fault::BadRun => Wanted::Run,
        Fault::ExternalProperties => Wanted::NoFiles,
        Fault::BadRules => Wanted::Rules,
        Fault::BadIndex => Wanted::Index,
        Fault::BadLevel => Wanted::Level,
        Fault::BadKind => Wanted::Kind,
        Fault::BadGuid => Wanted::Guid,
        Fault::BadFingerprint => Wanted::TextMap,
        Fault::BadLocation => Wanted::Location,
        Fault::BadSuppression => Wanted::Suppression,
        Fault::BadMember => Wanted::Member,
        Fault::AbsentInput => Wanted::Present,
        Fault::NoChange => Wanted::Section,
        Fault::Combined => Wanted::TwoParents,
        Fault::BadHunk => Wanted::HunkLine,
        Fault::BadHeader => Wanted::FileName,
        Fault::Submodule => Wanted::SubmoduleFiles,
        Fault::NotPolicy => Wanted::Policy(PolicyWanted::File),
        Fault::NoCondition => Wanted::Policy(PolicyWanted::SomeConditions),
        Fault::BadCondition => Wanted::Policy(PolicyWanted::Apart),
        Fault::BadFilter => Wanted::Policy(PolicyWanted::Filter),
        Fault::EmptyFilter => Wanted::Condition,
        Fault::SameName => Wanted::Policy(PolicyWanted::OtherName),
        Fault::NeedsDiff => Wanted::Policy(PolicyWanted::Change),
        Fault::TooMany => match at {
            At::Line(_) => Wanted::FewSections,
            At::Whole(Source::Suppress) => Wanted::FewEntries,
            At::Whole(Source::Policy) => Wanted::Policy(PolicyWanted::FewConditions),
            At::Run(_, _) => Wanted::FewResults,
            _ => Wanted::FewRuns,
        },
        Fault::NotList => Wanted::Entries,
        Fault::BadEntry => Wanted::Entry,
        Fault::EmptyMatch => Wanted::Condition,
        Fault::NeedsToday => Wanted::Today,
        Fault::NotSuccessful => Wanted::Success,
        Fault::NoHit => match at {
            At::Rule(_) => Wanted::HitRule,
            _ => Wanted::HitPlace,
        },
    }
}

/// Returns what is expected for the cause of an error.
pub(crate) fn wanted_by(fault: &MergeFault) -> Wanted {
    match fault.cause {
        Cause::Of(wrong) => wanted_at(fault.at, wrong),
        Cause::TooLong => Wanted::FewBytes,
        Cause::ReadFailed => Wanted::Readable,
        Cause::WriteFailed => Wanted::Writable,
        Cause::OutOfMemory => Wanted::Memory,
        Cause::NoWorker => Wanted::Threads,
    }
}

/// The place itself, if no error was found in it.
fn or_all<'a>(found: Option<Mismatch<'a>>, place: JsonPlace<'a>, wanted: Wanted) -> Mismatch<'a> {
    match found {
        Some(mismatch) => mismatch,
        None => Mismatch::at(place, wanted),
    }
}

/// The error in a whole source.
fn mismatch_of_source<'a>(alloc: Global, root: &JsonPlace<'a>, at: At, fault: Fault) -> Found<'a> {
    match at {
        At::Whole(Source::Suppress) => mismatch_in(alloc, root, file_checks(fault)),
        At::Whole(Source::Policy) => mismatch_of_policy(alloc, root, fault),
        _ => mismatch_in(alloc, root, log_checks(fault)),
    }
}

/// The error in a log or a baseline, at a run or at a result of it.
fn mismatch_in_log<'a>(
    alloc: Global,
    root: JsonPlace<'a>,
    number: u32,
    single: Option<u32>,
    at: At,
    fault: Fault,
) -> Result<Mismatch<'a>, AllocError> {
    let wanted = wanted_at(at, fault);
    let Some(run) = root.nth(alloc, &["runs"], number as usize)? else {
        return Ok(Mismatch::at(root, wanted));
    };
    let Some(single) = single else {
        return Ok(or_all(mismatch_of_run(alloc, &run, fault)?, run, wanted));
    };
    match run.nth(alloc, &["results"], single as usize)? {
        Some(place) => {
            let found = mismatch_of_result(alloc, &run, &place, fault)?;
            Ok(or_all(found, place, wanted))
        }
        None => Ok(Mismatch::at(run, wanted)),
    }
}

/// The error in the suppression file, at an entry.
fn mismatch_in_file<'a>(
    alloc: Global,
    root: JsonPlace<'a>,
    number: u32,
    fault: Fault,
) -> Result<Mismatch<'a>, AllocError> {
    let wanted = wanted_at(At::Entry(number), fault);
    match root.nth(alloc, &["suppressions"], number as usize)? {
        Some(entry) => {
            let found = mismatch_of_entry(alloc, root.value, &entry, fault)?;
            Ok(or_all(found, entry, wanted))
        }
        None => Ok(Mismatch::at(root, wanted)),
    }
}

/// Returns whether the source is the suppression file or the policy, which aren't stripped.
fn is_file(at: At) -> bool {
    matches!(
        at,
        At::Whole(Source::Suppress | Source::Policy)
            | At::Entry(_)
            | At::Condition(_)
            | At::Only(_, _)
            | At::Except(_, _)
    )
}

/// Returns the error in the source with this value.
pub(crate) fn mismatch_of<'a>(
    alloc: Global,
    value: &'a Value,
    at: At,
    fault: Fault,
) -> Result<Mismatch<'a>, AllocError> {
    let root = JsonPlace::root(alloc, value, !is_file(at));
    match at {
        At::Nowhere | At::Whole(_) | At::Line(_) | At::Place(_) | At::Rule(_) => {
            let found = mismatch_of_source(alloc, &root, at, fault)?;
            Ok(or_all(found, root, wanted_at(at, fault)))
        }
        At::Run(_, run) => mismatch_in_log(alloc, root, run, None, at, fault),
        At::Single(_, run, single) => mismatch_in_log(alloc, root, run, Some(single), at, fault),
        At::Entry(entry) => mismatch_in_file(alloc, root, entry, fault),
        At::Condition(number) | At::Only(number, _) | At::Except(number, _) => {
            mismatch_in_policy(alloc, root, number, at, fault, wanted_at(at, fault))
        }
    }
}

//! The places and causes of errors, their strings and their exit statuses.
use sarif_model::{At, Cause, Fault, MergeFault, Refusal, Source};
use sarif_streams::{ReadersFault, SourceFault, rejection_of};
use std::alloc::AllocError;
use std::test::Fail;

#[test]
fn places_of_faults(rt: HostRuntime) -> Result<(), Fail> {
    let log = Source::Log(3);
    let baseline = Source::Baseline(0);
    let cause = Cause::OutOfMemory;
    for (at, text) in [
        (At::Nowhere, "OutOfMemory"),
        (At::Whole(log), "log 3: OutOfMemory"),
        (At::Whole(baseline), "baseline 0: OutOfMemory"),
        (At::Whole(Source::Suppress), "suppressions: OutOfMemory"),
        (At::Whole(Source::Policy), "policy: OutOfMemory"),
        (At::Whole(Source::Diff), "diff: OutOfMemory"),
        (At::Whole(Source::Output), "output: OutOfMemory"),
        (At::Whole(Source::Known), "known log: OutOfMemory"),
        (At::Run(log, 1), "log 3, run 1: OutOfMemory"),
        (At::Run(baseline, 1), "baseline 0, run 1: OutOfMemory"),
        (At::Single(log, 1, 7), "log 3, run 1, result 7: OutOfMemory"),
        (
            At::Single(baseline, 0, 9),
            "baseline 0, run 0, result 9: OutOfMemory",
        ),
        (At::Entry(2), "suppressions, entry 2: OutOfMemory"),
        (At::Condition(1), "policy, condition 1: OutOfMemory"),
        (At::Only(0, 3), "policy, condition 0, only 3: OutOfMemory"),
        (
            At::Except(2, 0),
            "policy, condition 2, except 0: OutOfMemory",
        ),
        (At::Line(1), "diff, line 1: OutOfMemory"),
        (At::Place(0), "--at 0: OutOfMemory"),
        (At::Rule(10), "--rule 10: OutOfMemory"),
    ] {
        let fault = MergeFault { at, cause };
        assert_eq!(rt; format!(in rt.alloc(); "{fault}")?.as_str(), text);
    }
    Ok(())
}

#[test]
fn causes_of_faults(rt: HostRuntime) -> Result<(), Fail> {
    for (cause, text, status) in [
        (Cause::Of(Fault::NotJson), "NotJson", 2),
        (Cause::Of(Fault::NotLog), "NotLog", 2),
        (Cause::Of(Fault::WrongVersion), "WrongVersion", 2),
        (Cause::Of(Fault::TooMany), "TooMany", 2),
        (Cause::Of(Fault::BadRun), "BadRun", 2),
        (
            Cause::Of(Fault::ExternalProperties),
            "ExternalProperties",
            2,
        ),
        (Cause::Of(Fault::BadRules), "BadRules", 2),
        (Cause::Of(Fault::BadIndex), "BadIndex", 2),
        (Cause::Of(Fault::BadLevel), "BadLevel", 2),
        (Cause::Of(Fault::BadLocation), "BadLocation", 2),
        (Cause::Of(Fault::BadMember), "BadMember", 2),
        (Cause::Of(Fault::BadKind), "BadKind", 2),
        (Cause::Of(Fault::BadGuid), "BadGuid", 2),
        (Cause::Of(Fault::BadFingerprint), "BadFingerprint", 2),
        (Cause::Of(Fault::BadSuppression), "BadSuppression", 2),
        (Cause::Of(Fault::AbsentInput), "AbsentInput", 2),
        (Cause::Of(Fault::NotList), "NotList", 2),
        (Cause::Of(Fault::BadEntry), "BadEntry", 2),
        (Cause::Of(Fault::EmptyMatch), "EmptyMatch", 2),
        (Cause::Of(Fault::NeedsToday), "NeedsToday", 2),
        (Cause::Of(Fault::NotSuccessful), "NotSuccessful", 2),
        (Cause::Of(Fault::NoHit), "NoHit", 2),
        (Cause::Of(Fault::NoChange), "NoChange", 2),
        (Cause::Of(Fault::Combined), "Combined", 2),
        (Cause::Of(Fault::BadHunk), "BadHunk", 2),
        (Cause::Of(Fault::BadHeader), "BadHeader", 2),
        (Cause::Of(Fault::Submodule), "Submodule", 2),
        (Cause::TooLong, "TooLong", 2),
        (Cause::ReadFailed, "ReadFailed", 3),
        (Cause::WriteFailed, "WriteFailed", 3),
        (Cause::OutOfMemory, "OutOfMemory", 2),
        (Cause::NoWorker, "NoWorker", 2),
    ] {
        assert_eq!(rt; format!(in rt.alloc(); "{cause}")?.as_str(), text);
        assert_eq!(rt; cause.status(), status);
    }
    Ok(())
}

#[test]
fn want_of_memory_is_nowhere(rt: HostRuntime) {
    let out_of_memory = MergeFault {
        at: At::Nowhere,
        cause: Cause::OutOfMemory,
    };
    assert_eq!(rt; MergeFault::from(AllocError), out_of_memory);
    assert_eq!(rt; rejection_of(Refusal::OutOfMemory), out_of_memory);
}

#[test]
fn sources_that_are_not_read(rt: HostRuntime) -> Result<(), Fail> {
    for (refusal, text, status) in [
        (
            Refusal::Fault(ReadersFault {
                source: Source::Suppress,
                fault: SourceFault::ReadFailed,
            }),
            "suppressions: ReadFailed",
            3,
        ),
        (
            Refusal::Fault(ReadersFault {
                source: Source::Baseline(7),
                fault: SourceFault::TooLong,
            }),
            "baseline 7: TooLong",
            2,
        ),
        (Refusal::OutOfMemory, "OutOfMemory", 2),
    ] {
        assert_eq!(rt; format!(in rt.alloc(); "{refusal}")?.as_str(), text);
        let fault = rejection_of(refusal);
        assert_eq!(rt; format!(in rt.alloc(); "{fault}")?.as_str(), text);
        assert_eq!(rt; fault.cause.status(), status);
    }
    Ok(())
}

//! The names of causes, as error messages have them.
ghost use Rattle.std.specs.Prelude.{◌≡◌};
ghost use Rattle.sarif_program.specs.Line.{cause_name, fault_name};

use sarif_model::{Cause, Fault};

/// Returns the name of a cause.
pub(crate) fn cause_name(cause: Cause) -> &'static str
    ensures { result.now ≡ cause_name cause }
{
    match cause {
        Cause::Of(fault) => fault_name(fault),
        Cause::TooLong => "TooLong",
        Cause::ReadFailed => "ReadFailed",
        Cause::WriteFailed => "WriteFailed",
        Cause::OutOfMemory => "OutOfMemory",
        Cause::NoWorker => "NoWorker",
    }
}

/// Returns the name of an error in what was read.
fn fault_name(fault: Fault) -> &'static str
    ensures { result.now ≡ fault_name fault }
{
    match fault {
        Fault::NotJson => "NotJson",
        Fault::NotLog => "NotLog",
        Fault::WrongVersion => "WrongVersion",
        Fault::BadRun => "BadRun",
        Fault::ExternalProperties => "ExternalProperties",
        Fault::BadRules => "BadRules",
        Fault::BadIndex => "BadIndex",
        Fault::BadLevel => "BadLevel",
        Fault::BadKind => "BadKind",
        Fault::BadGuid => "BadGuid",
        Fault::BadFingerprint => "BadFingerprint",
        Fault::BadLocation => "BadLocation",
        Fault::BadSuppression => "BadSuppression",
        Fault::BadMember => "BadMember",
        Fault::AbsentInput => "AbsentInput",
        Fault::TooMany => "TooMany",
        Fault::NotList => "NotList",
        Fault::BadEntry => "BadEntry",
        Fault::EmptyMatch => "EmptyMatch",
        Fault::NeedsToday => "NeedsToday",
        Fault::NotSuccessful => "NotSuccessful",
        Fault::NoHit => "NoHit",
        Fault::NoChange => "NoChange",
        Fault::Combined => "Combined",
        Fault::BadHunk => "BadHunk",
        Fault::BadHeader => "BadHeader",
        Fault::Submodule => "Submodule",
        Fault::NotPolicy => "NotPolicy",
        Fault::NoCondition => "NoCondition",
        Fault::BadCondition => "BadCondition",
        Fault::BadFilter => "BadFilter",
        Fault::EmptyFilter => "EmptyFilter",
        Fault::SameName => "SameName",
        Fault::NeedsDiff => "NeedsDiff",
    }
}

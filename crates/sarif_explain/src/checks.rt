//! The tables of the members that are checked for each error, in the order in which a merge checks them.
use crate::wanted::Wanted;
use sarif_model::Fault;

/// Whether a member may be absent.
#[derive(Clone, Copy, Debug, PartialEq, Eq)]
pub(crate) enum Need {
    /// The member may be missing or null.
    May,
    /// The member is required.
    Must,
}

use Need::{May, Must};

/// A value, by the names of the members on the path to it, and what is expected of it.
#[derive(Clone, Copy)]
pub(crate) struct Check(pub &'static [&'static str], pub Need, pub Wanted);

const NOT_LOG: &[Check] = &[
    Check(&[], Must, Wanted::Log),
    Check(&["runs"], Must, Wanted::Runs),
];

const LOG_VERSION: &[Check] = &[Check(&["version"], Must, Wanted::LogVersion)];

const MANY_RUNS: &[Check] = &[Check(&["runs"], May, Wanted::FewRuns)];

/// The checks of a whole log.
pub(crate) fn log_checks(fault: Fault) -> &'static [Check] {
    match fault {
        Fault::NotLog => NOT_LOG,
        Fault::WrongVersion => LOG_VERSION,
        Fault::TooMany => MANY_RUNS,
        _ => &[],
    }
}

const NOT_LIST: &[Check] = &[
    Check(&[], Must, Wanted::Entries),
    Check(&["suppressions"], Must, Wanted::Array),
];

const FILE_VERSION: &[Check] = &[Check(&["version"], Must, Wanted::FileVersion)];

const MANY_ENTRIES: &[Check] = &[Check(&["suppressions"], May, Wanted::FewEntries)];

/// The checks of the whole suppression file.
pub(crate) fn file_checks(fault: Fault) -> &'static [Check] {
    match fault {
        Fault::NotList => NOT_LIST,
        Fault::WrongVersion => FILE_VERSION,
        Fault::TooMany => MANY_ENTRIES,
        _ => &[],
    }
}

const BAD_RUN: &[Check] = &[
    Check(&[], Must, Wanted::Run),
    Check(&["tool"], Must, Wanted::Object),
    Check(&["tool", "driver"], Must, Wanted::Object),
    Check(&["tool", "driver", "name"], Must, Wanted::Text),
    Check(&["results"], May, Wanted::Objects),
];

const EXTERNAL: &[Check] = &[Check(&["externalPropertyFileReferences"], May, Wanted::NoFiles)];

const MANY_RESULTS: &[Check] = &[Check(&["results"], May, Wanted::FewResults)];

const BAD_EXTENSIONS: &[Check] = &[Check(&["tool", "extensions"], May, Wanted::Objects)];

const BAD_ARTIFACTS: &[Check] = &[Check(&["artifacts"], May, Wanted::Objects)];

const BAD_INVOCATIONS: &[Check] = &[Check(&["invocations"], May, Wanted::Objects)];

/// The checks of a run's own members.
pub(crate) fn run_checks(fault: Fault) -> &'static [Check] {
    match fault {
        Fault::BadRun => BAD_RUN,
        Fault::ExternalProperties => EXTERNAL,
        Fault::TooMany => MANY_RESULTS,
        Fault::BadRules => BAD_EXTENSIONS,
        Fault::BadLocation => BAD_ARTIFACTS,
        Fault::BadMember => BAD_INVOCATIONS,
        _ => &[],
    }
}

const RULES: &[Check] = &[Check(&["rules"], May, Wanted::Array)];

/// The checks of the driver, and of each extension.
pub(crate) fn component_checks(fault: Fault) -> &'static [Check] {
    match fault {
        Fault::BadRules => RULES,
        _ => &[],
    }
}

const BAD_RULE: &[Check] = &[
    Check(&[], Must, Wanted::Object),
    Check(&["id"], Must, Wanted::Text),
    Check(&["defaultConfiguration"], May, Wanted::Object),
];

const DEFAULT_LEVEL: &[Check] = &[Check(&["defaultConfiguration", "level"], May, Wanted::Level)];

/// The checks of each rule.
pub(crate) fn rule_checks(fault: Fault) -> &'static [Check] {
    match fault {
        Fault::BadRules => BAD_RULE,
        Fault::BadLevel => DEFAULT_LEVEL,
        _ => &[],
    }
}

const BAD_ARTIFACT: &[Check] = &[
    Check(&["location"], May, Wanted::Object),
    Check(&["location", "uri"], May, Wanted::Text),
    Check(&["location", "uriBaseId"], May, Wanted::Text),
];

/// The checks of each artifact.
pub(crate) fn artifact_checks(fault: Fault) -> &'static [Check] {
    match fault {
        Fault::BadLocation => BAD_ARTIFACT,
        _ => &[],
    }
}

const OVERRIDES: &[Check] = &[Check(&["ruleConfigurationOverrides"], May, Wanted::Objects)];

const SUCCESSFUL: &[Check] = &[Check(&["executionSuccessful"], May, Wanted::Success)];

/// The checks of each invocation.
pub(crate) fn invocation_checks(fault: Fault) -> &'static [Check] {
    match fault {
        Fault::BadMember => OVERRIDES,
        Fault::NotSuccessful => SUCCESSFUL,
        _ => &[],
    }
}

const BAD_OVERRIDE: &[Check] = &[
    Check(&["descriptor"], May, Wanted::Object),
    Check(&["descriptor", "id"], May, Wanted::Text),
    Check(&["descriptor", "toolComponent"], May, Wanted::Object),
    Check(&["configuration"], May, Wanted::Object),
];

const OVERRIDE_INDEXES: &[Check] = &[
    Check(&["descriptor", "index"], May, Wanted::Index),
    Check(
        &["descriptor", "toolComponent", "index"],
        May,
        Wanted::Index,
    ),
];

const OVERRIDE_LEVEL: &[Check] = &[Check(&["configuration", "level"], May, Wanted::Level)];

/// The checks of each override.
pub(crate) fn override_checks(fault: Fault) -> &'static [Check] {
    match fault {
        Fault::BadMember => BAD_OVERRIDE,
        Fault::BadIndex => OVERRIDE_INDEXES,
        Fault::BadLevel => OVERRIDE_LEVEL,
        _ => &[],
    }
}

const ABSENT: &[Check] = &[Check(&["baselineState"], May, Wanted::Present)];

const KIND: &[Check] = &[Check(&["kind"], May, Wanted::Kind)];

const LEVEL: &[Check] = &[Check(&["level"], May, Wanted::Level)];

const GUID: &[Check] = &[Check(&["correlationGuid"], May, Wanted::Guid)];

const FINGERPRINTS: &[Check] = &[
    Check(&["fingerprints"], May, Wanted::TextMap),
    Check(&["partialFingerprints"], May, Wanted::TextMap),
];

const SUPPRESSIONS: &[Check] = &[Check(&["suppressions"], May, Wanted::Objects)];

const MEMBERS: &[Check] = &[
    Check(&["message"], May, Wanted::Object),
    Check(&["message", "text"], May, Wanted::Text),
    Check(&["message", "id"], May, Wanted::Text),
    Check(&["message", "arguments"], May, Wanted::Texts),
    Check(&["ruleId"], May, Wanted::Text),
    Check(&["rule"], May, Wanted::Object),
    Check(&["rule", "id"], May, Wanted::Text),
    Check(&["rule", "toolComponent"], May, Wanted::Object),
    Check(&["provenance"], May, Wanted::Object),
];

const INDEXES: &[Check] = &[
    Check(&["ruleIndex"], May, Wanted::Index),
    Check(&["rule", "index"], May, Wanted::Index),
    Check(&["rule", "toolComponent", "index"], May, Wanted::Index),
    Check(&["provenance", "invocationIndex"], May, Wanted::Index),
];

const LOCATIONS: &[Check] = &[Check(&["locations"], May, Wanted::Array)];

/// The checks of a result's own members.
pub(crate) fn result_checks(fault: Fault) -> &'static [Check] {
    match fault {
        Fault::AbsentInput => ABSENT,
        Fault::BadKind => KIND,
        Fault::BadLevel => LEVEL,
        Fault::BadGuid => GUID,
        Fault::BadFingerprint => FINGERPRINTS,
        Fault::BadSuppression => SUPPRESSIONS,
        Fault::BadMember => MEMBERS,
        Fault::BadIndex => INDEXES,
        Fault::BadLocation => LOCATIONS,
        _ => &[],
    }
}

const SUPPRESSION: &[Check] = &[
    Check(&["kind"], Must, Wanted::SuppressionKind),
    Check(&["status"], May, Wanted::Status),
];

/// The checks of each suppression of a result.
pub(crate) fn suppression_checks(fault: Fault) -> &'static [Check] {
    match fault {
        Fault::BadSuppression => SUPPRESSION,
        _ => &[],
    }
}

const LOCATION: &[Check] = &[
    Check(&[], Must, Wanted::Object),
    Check(&["physicalLocation"], May, Wanted::Object),
    Check(
        &["physicalLocation", "artifactLocation"],
        May,
        Wanted::Object,
    ),
    Check(
        &["physicalLocation", "artifactLocation", "uri"],
        May,
        Wanted::Text,
    ),
    Check(
        &["physicalLocation", "artifactLocation", "uriBaseId"],
        May,
        Wanted::Text,
    ),
];

const LOCATION_INDEX: &[Check] = &[Check(
    &["physicalLocation", "artifactLocation", "index"],
    May,
    Wanted::Index,
)];

/// The checks of a result's first location.
pub(crate) fn location_checks(fault: Fault) -> &'static [Check] {
    match fault {
        Fault::BadLocation => LOCATION,
        Fault::BadIndex => LOCATION_INDEX,
        _ => &[],
    }
}

const ENTRY_MEMBERS: &[Check] = &[
    Check(&[], Must, Wanted::Entry),
    Check(&["tool"], May, Wanted::Text),
    Check(&["ruleId"], May, Wanted::Text),
    Check(&["uri"], May, Wanted::Text),
    Check(&["uriPrefix"], May, Wanted::Text),
    Check(&["guid"], May, Wanted::Guid),
    Check(&["fingerprints"], May, Wanted::TextMap),
    Check(&["partialFingerprints"], May, Wanted::TextMap),
    Check(&["message"], May, Wanted::Text),
    Check(&["messageId"], May, Wanted::Text),
    Check(&["messageArguments"], May, Wanted::Texts),
    Check(&["snippet"], May, Wanted::Text),
    Check(&["expires"], May, Wanted::Day),
    Check(&["status"], May, Wanted::Status),
    Check(&["justification"], May, Wanted::Text),
    Check(&["max"], May, Wanted::Limit),
];

/// The members that an entry may have, each with the first version of the file that has it.
pub(crate) const ENTRY_NAMES: &[(&str, u64)] = &[
    ("tool", 1),
    ("ruleId", 1),
    ("uri", 1),
    ("uriPrefix", 2),
    ("guid", 1),
    ("fingerprints", 1),
    ("partialFingerprints", 1),
    ("message", 4),
    ("messageId", 4),
    ("messageArguments", 4),
    ("snippet", 5),
    ("max", 5),
    ("expires", 2),
    ("status", 1),
    ("justification", 1),
];

/// What is expected of the members of an entry in a file of version 1, 2, 4 and 5, and of its conditions.
pub(crate) const FIRST_NAMES: &str = "in version 1 only the members tool, ruleId, uri, guid, \
    fingerprints, partialFingerprints, status and justification";

pub(crate) const SECOND_NAMES: &str = "in version 2 only the members tool, ruleId, uri, \
    uriPrefix, guid, fingerprints, partialFingerprints, expires, status and justification";

pub(crate) const FOURTH_NAMES: &str = "in version 4 only the members tool, ruleId, uri, \
    uriPrefix, guid, fingerprints, partialFingerprints, message, messageId, messageArguments, \
    expires, status and justification";

pub(crate) const FIFTH_NAMES: &str = "only the members tool, ruleId, uri, uriPrefix, guid, \
    fingerprints, partialFingerprints, message, messageId, messageArguments, snippet, max, \
    expires, status and justification";

pub(crate) const CONDITIONS: &str = "at least one of tool, ruleId, uri, uriPrefix, guid, \
    fingerprints, partialFingerprints, message, messageId, messageArguments and snippet";

const EMPTY_MATCH: &[Check] = &[Check(&[], Must, Wanted::Condition)];

const TODAY: &[Check] = &[Check(&["expires"], May, Wanted::Today)];

/// The checks of an entry of the suppression file whose member names are valid.
pub(crate) fn entry_checks(fault: Fault) -> &'static [Check] {
    match fault {
        Fault::BadEntry => ENTRY_MEMBERS,
        Fault::EmptyMatch => EMPTY_MATCH,
        Fault::NeedsToday => TODAY,
        _ => &[],
    }
}

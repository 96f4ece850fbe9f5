//! The errors of an input.
use thiserror::Error;

/// The first thing that is wrong with a log, a run, a result, the suppression file, the policy, the diff or the choice
/// of hits. A member of a log may be absent or null where it isn't said that it must be there.
#[derive(Clone, Copy, Debug, PartialEq, Eq, Error)]
pub enum Fault {
    /// The bytes are not UTF-8, not JSON, or nested deeper than `MAX_DEPTH` of `json_parts`.
    #[error("NotJson")]
    NotJson = 1,
    /// The value is not an object, or `runs`, which is required, is neither an array nor null.
    #[error("NotLog")]
    NotLog = 2,
    /// `version`, which must be there, is not supported: a log or a baseline must have the string
    /// `2.1.0`, the suppression file the integer 1, 2 or 4.
    #[error("WrongVersion")]
    WrongVersion = 3,
    /// A run that is not an object, or whose `tool.driver.name`, which is required, is not a string, or whose
    /// `results` are not an array of objects.
    #[error("BadRun")]
    BadRun = 4,
    /// A run that names external property files: its `externalPropertyFileReferences` is not an empty object. If such
    /// files are allowed, it names one for a part that is read.
    #[error("ExternalProperties")]
    ExternalProperties = 5,
    /// `tool.extensions` that is not an array of objects, `rules` of the driver or of an extension that is not an
    /// array, or a rule that is not an object, or whose `id`, which is required, is not a string, or whose
    /// `defaultConfiguration` is not an object.
    #[error("BadRules")]
    BadRules = 6,
    /// An index that is not an integer from -1 to 4,294,967,295, or past the end of its table.
    #[error("BadIndex")]
    BadIndex = 7,
    /// A `level` of a rule, of an override or of a result that is none of the four strings.
    #[error("BadLevel")]
    BadLevel = 8,
    /// A `kind` of a result that is none of the six strings.
    #[error("BadKind")]
    BadKind = 9,
    /// A `correlationGuid` of a result that is not a string that represents a GUID.
    #[error("BadGuid")]
    BadGuid = 10,
    /// `fingerprints` or `partialFingerprints` of a result that is not an object of strings.
    #[error("BadFingerprint")]
    BadFingerprint = 11,
    /// For a run: `artifacts` that is not an array of objects, or an artifact whose `location` is not an object,
    /// or contains a `uri` or `uriBaseId` that is not a string. For a result: `locations` that is not an array, or
    /// whose first element is not an object, or contains a `physicalLocation` that is not an object, or an
    /// `artifactLocation` in it that is not an object, or a `uri` or `uriBaseId` in that is not a string.
    #[error("BadLocation")]
    BadLocation = 12,
    /// `suppressions` of a result that is not an array of objects, or a suppression whose `kind`, which is
    /// required, is neither `inSource` nor `external`, or whose `status` is none of the three strings.
    #[error("BadSuppression")]
    BadSuppression = 13,
    /// For a run: `invocations`, or `ruleConfigurationOverrides` of one, that is not an array of objects, or an
    /// override with a `descriptor`, a `toolComponent` in it or a `configuration` that is not an object, or with
    /// an `id` in its descriptor that is not a string. For a result: a `message` that is not an object, or
    /// contains a `text` or `id` that is not a string, or `arguments` that is not an array of strings; a `ruleId`
    /// that is not a string; a `rule` that is not an object, or contains an `id` that is not a string, or a
    /// `toolComponent` that is not an object; a `provenance` that is not an object.
    #[error("BadMember")]
    BadMember = 14,
    /// A result whose `baselineState` is already `absent`.
    #[error("AbsentInput")]
    AbsentInput = 15,
    /// More than `MOST_SOURCES` logs or baselines; a source of more than `MOST_RUNS` runs, or with which the sources
    /// up to it have more than `MOST_RUNS` runs or `MOST_RESULTS` results; a run with which its source has more
    /// than `MOST_RESULTS` results; or a suppression file of more than `MOST_ENTRIES` entries.
    #[error("TooMany")]
    TooMany = 16,
    /// The suppression file is not an object with an array `suppressions`.
    #[error("NotList")]
    NotList = 17,
    /// An entry of the suppression file that is not an object, has a member that its version doesn't
    /// know, or one of the wrong type.
    #[error("BadEntry")]
    BadEntry = 18,
    /// An entry of the suppression file that names no condition.
    #[error("EmptyMatch")]
    EmptyMatch = 19,
    /// An entry of the suppression file that expires, if the merge has no date of today.
    #[error("NeedsToday")]
    NeedsToday = 20,
    /// A run whose analysis failed, if success is required: `executionSuccessful` of an invocation is false, or
    /// `results` are missing or null.
    #[error("NotSuccessful")]
    NotSuccessful = 21,
    /// A place or a rule of the hits to accept that fits none of the chosen hits.
    #[error("NoHit")]
    NoHit = 22,
    /// A diff without a section.
    #[error("NoChange")]
    NoChange = 23,
    /// A line of a diff that begins a comparison with several parents.
    #[error("Combined")]
    Combined = 24,
    /// A line of a diff that should be the header of a hunk or one of its lines, and isn't.
    #[error("BadHunk")]
    BadHunk = 25,
    /// A line of a diff with a name that is empty, badly quoted or missing.
    #[error("BadHeader")]
    BadHeader = 26,
    /// A line of a diff with a new commit of a submodule, whose changed files it doesn't name.
    #[error("Submodule")]
    Submodule = 27,
    /// The policy is not an object, has a member that its version doesn't know, or its `conditions` are not an array.
    #[error("NotPolicy")]
    NotPolicy = 28,
    /// A policy without a condition: such a gate would always pass.
    #[error("NoCondition")]
    NoCondition = 29,
    /// A condition of the policy that is not an object, has a member that its version doesn't know, or one of the wrong
    /// type or value, or members that don't go together.
    #[error("BadCondition")]
    BadCondition = 30,
    /// A filter of a condition that is not an object, has a member that its version doesn't know, or one of the wrong
    /// type.
    #[error("BadFilter")]
    BadFilter = 31,
    /// A filter of a condition that names nothing that a result must have.
    #[error("EmptyFilter")]
    EmptyFilter = 32,
    /// A condition of the policy with the name of an earlier one.
    #[error("SameName")]
    SameName = 33,
    /// A condition of the policy on the change, if there is no diff.
    #[error("NeedsDiff")]
    NeedsDiff = 34,
}

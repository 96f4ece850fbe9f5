//! The tiers by which results are compared, from the surest to the weakest.
use sarif_model::Text;

/// One way to recognise that two results are the same. A merge goes through the tiers in order, and each tier
/// matches only results that earlier tiers left unmatched. The group of a result is its tool, rule, place and message.
#[derive(Debug, Drop, PartialEq, Eq)]
pub enum Tier {
    /// By `correlationGuid` (SARIF 2.1.0, "correlationGuid property").
    Guid,
    /// By group, all fingerprints of both types, snippet and region, for a result with no GUID. In version 3 only.
    Same,
    /// By group, all fingerprints of both types and snippet, for a result with no GUID. In version 3 only.
    SameText,
    /// By group and the value of the fingerprint with this name. In version 3 only.
    FingerprintHere(Text),
    /// By the value of the fingerprint with this name (SARIF 2.1.0, "fingerprints property").
    Fingerprint(Text),
    /// By all `partialFingerprints` and the place (SARIF 2.1.0, "partialFingerprints property").
    PartialHere,
    /// By all `partialFingerprints`, wherever the result now is.
    PartialMoved,
    /// By group and snippet, for a result with no GUID. In version 3 only.
    PlaceText,
    /// By group, for a result with no GUID and no fingerprints.
    Place,
    /// By group, for a result with no GUID. In version 3 only.
    PlaceLeft,
}

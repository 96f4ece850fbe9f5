//! A result's own members: nine checks, in order. Each reads what it checks.
ghost use Rattle.std.specs.Prelude.{◌≡◌, Ok, Err, IfOk};
ghost use Rattle.serde_json.specs.View.{view as seen};
ghost use Rattle.sarif_members.specs.OwnMembers.{check_present, own_kind, own_level, own_guid};
ghost use Rattle.sarif_members.specs.OwnMembers.{parts_of};
ghost use Rattle.sarif_model.specs.Internal.Refusal.{IfFault};

mod fingerprints;
mod indexed;
mod indexes;
mod location;
mod message;
mod region;
mod suppressions;

use crate::parts::Parts;
use fingerprints::read_fingerprints;
pub use indexed::{is_node_absent, read_node_members};
use indexes::read_indexes;
use location::read_location;
use message::read_message_and_rule;
use region::read_region;
use sarif_model::members::member_at;
use sarif_model::{Fault, Kind, Level, Refusal, read_guid};
use sarif_read::is_marked_absent;
use serde_json::Value;
use std::alloc::Global;
use suppressions::read_statuses;

/// `AbsentInput` where the result is marked as absent (SARIF 2.1.0, result object, "baselineState
/// property").
fn check_is_present(result_value: &Value) -> Result<(), Fault>
    ensures { result ≡ check_present (seen result_value.now) }
{
    if is_marked_absent(result_value) {
        Err(Fault::AbsentInput)
    } else {
        Ok(())
    }
}

/// The kind of a result, or `BadKind`; `fail` if it is missing (SARIF 2.1.0, result object, "kind
/// property").
fn read_kind(result_value: &Value) -> Result<Kind, Fault>
    ensures { result ≡ own_kind (seen result_value.now) }
{
    match member_at(result_value, "kind") {
        None => Ok(Kind::Fail),
        Some(member) => member
            .as_str()
            .and_then(Kind::from_name)
            .ok_or(Fault::BadKind),
    }
}

/// The level of a result as it is written, or `BadLevel` (SARIF 2.1.0, result object, "level property").
fn read_level(result_value: &Value) -> Result<Option<Level>, Fault>
    ensures { result ≡ own_level (seen result_value.now) }
{
    match member_at(result_value, "level") {
        None => Ok(None),
        Some(member) => match member.as_str().and_then(Level::from_name) {
            Some(level) => Ok(Some(level)),
            None => Err(Fault::BadLevel),
        },
    }
}

/// The `correlationGuid` of a result as a number, or `BadGuid` (SARIF 2.1.0, result object,
/// "correlationGuid property").
fn read_correlation_guid(result_value: &Value) -> Result<Option<u128>, Fault>
    ensures { result ≡ own_guid (seen result_value.now) }
{
    match member_at(result_value, "correlationGuid") {
        None => Ok(None),
        Some(member) => match member.as_str().and_then(|text| read_guid(text)) {
            Some(guid) => Ok(Some(guid)),
            None => Err(Fault::BadGuid),
        },
    }
}

/// The own members of a result (SARIF 2.1.0, "result object"), or its first error in this order: `AbsentInput` if
/// `baselineState` is `absent`; `BadKind` for `kind`; `BadLevel` for `level`; `BadGuid` for `correlationGuid`;
/// `BadFingerprint` for `fingerprints` and `partialFingerprints`; `BadSuppression` for `suppressions`; `BadMember`
/// for `message`, `ruleId`, `rule` and `provenance`; `BadIndex` for the indexes in `ruleIndex`, `rule` and
/// `provenance`; `BadLocation` for the first of `locations`, then `BadIndex` for its artifact. Returns
/// `OutOfMemory` instead of any of these except the first four if memory runs out. With `regions` the region and the
/// snippet of the first location are read too; no result is rejected for them.
#[tactic(auto, unfolding(crate::specs::OwnMembers::parts_of))]
pub fn read_members(
    alloc: Global,
    result_value: &Value,
    regions: bool,
) -> Result<Parts, Refusal<Fault>>
    ensures ok { IfOk result (λ parts. parts_of regions (seen result_value.now) ≡ Ok parts) }
    ensures err { IfFault result
        (λ fault. parts_of regions (seen result_value.now) ≡ Err fault) }
{
    check_is_present(result_value)?;
    let kind = read_kind(result_value)?;
    let level = read_level(result_value)?;
    let guid = read_correlation_guid(result_value)?;
    let fingerprints = read_fingerprints(alloc, result_value)?;
    let held = read_statuses(alloc, result_value)?;
    let said = read_message_and_rule(alloc, result_value)?;
    let indexes = read_indexes(result_value)?;
    let location = read_location(alloc, result_value)?;
    let found = read_region(alloc, result_value, regions)?;
    Ok(Parts {
        kind,
        level,
        rule_id: said.rule_id,
        rule_index: indexes.rule_index,
        component: indexes.component,
        invocation: indexes.invocation,
        message: said.message,
        uri: location.uri,
        base: location.base,
        artifact: location.artifact,
        guid,
        full: fingerprints.full,
        partial: fingerprints.partial,
        held,
        region: found.region,
        snippet: found.snippet,
    })
}

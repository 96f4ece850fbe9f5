//! The own members of a result of an indexed log: the same checks in the same order, and no value of the result is made.
ghost use Rattle.std.specs.Prelude.{◌≡◌, Ok, Err, IfOk};
ghost use Rattle.sarif_model.specs.Internal.Refusal.{IfFault};
ghost use Rattle.sarif_model.specs.Run.{is_absent_result};
ghost use Rattle.sarif_read.specs.Internal.Listed.{value_at};
ghost use Rattle.sarif_members.specs.OwnMembers.{check_present, own_kind, own_level, own_guid};
ghost use Rattle.sarif_members.specs.OwnMembers.{parts_of};

mod fingerprints;
mod indexes;
mod location;
mod message;
mod region;
mod suppressions;

use crate::node_members::{kept_text, text_of};
use crate::parts::Parts;
use crate::result_node::ResultNode;
use fingerprints::read_fingerprints;
use indexes::read_indexes;
use json_parts::Node;
use location::read_location;
use message::read_message_and_rule;
use region::read_region;
use sarif_model::{Fault, Kind, Level, Refusal, read_guid};
use std::alloc::Global;
use suppressions::read_statuses;

/// Returns whether the `baselineState` of a result of an indexed log is the string `absent` (SARIF 2.1.0,
/// "baselineState property").
pub fn is_node_absent(found: &Node<'_, '_>) -> bool
    ensures { result ≡ is_absent_result (value_at found.now) }
{
    match kept_text(found, "baselineState") {
        Some("absent") => true,
        _ => false,
    }
}

/// `AbsentInput` where the result is marked as absent (SARIF 2.1.0, result object, "baselineState
/// property").
fn check_is_present(found: &ResultNode<'_, '_, '_>) -> Result<(), Fault>
    ensures { result ≡ check_present (value_at found.now) }
{
    match found.kept_text("baselineState") {
        Some("absent") => Err(Fault::AbsentInput),
        _ => Ok(()),
    }
}

/// The kind of a result, or `BadKind`; `fail` if it is missing (SARIF 2.1.0, result object, "kind
/// property").
fn read_kind(found: &ResultNode<'_, '_, '_>) -> Result<Kind, Fault>
    ensures { result ≡ own_kind (value_at found.now) }
{
    match found.member_at("kind") {
        None => Ok(Kind::Fail),
        Some(member) => text_of(&member)
            .and_then(Kind::from_name)
            .ok_or(Fault::BadKind),
    }
}

/// The level of a result as it is written, or `BadLevel` (SARIF 2.1.0, result object, "level property").
fn read_level(found: &ResultNode<'_, '_, '_>) -> Result<Option<Level>, Fault>
    ensures { result ≡ own_level (value_at found.now) }
{
    match found.member_at("level") {
        None => Ok(None),
        Some(member) => match text_of(&member).and_then(Level::from_name) {
            Some(level) => Ok(Some(level)),
            None => Err(Fault::BadLevel),
        },
    }
}

/// The `correlationGuid` of a result as a number, or `BadGuid` (SARIF 2.1.0, result object,
/// "correlationGuid property").
fn read_correlation_guid(found: &ResultNode<'_, '_, '_>) -> Result<Option<u128>, Fault>
    ensures { result ≡ own_guid (value_at found.now) }
{
    match found.member_at("correlationGuid") {
        None => Ok(None),
        Some(member) => match text_of(&member).and_then(|text| read_guid(text)) {
            Some(guid) => Ok(Some(guid)),
            None => Err(Fault::BadGuid),
        },
    }
}

/// The own members of a result of an indexed log, as [`read_members`](crate::read_members) returns them for its stripped
/// value, with the same errors in the same order. `regions` has the same meaning.
#[tactic(auto, unfolding(crate::specs::OwnMembers::parts_of))]
pub fn read_node_members(
    alloc: Global,
    found: &Node<'_, '_>,
    regions: bool,
) -> Result<Parts, Refusal<Fault>>
    ensures ok { IfOk result (λ parts. parts_of regions (value_at found.now) ≡ Ok parts) }
    ensures err { IfFault result (λ fault. parts_of regions (value_at found.now) ≡ Err fault) }
{
    let found = &ResultNode::new(found);
    check_is_present(found)?;
    let kind = read_kind(found)?;
    let level = read_level(found)?;
    let guid = read_correlation_guid(found)?;
    let fingerprints = read_fingerprints(alloc, found)?;
    let held = read_statuses(alloc, found)?;
    let said = read_message_and_rule(alloc, found)?;
    let indexes = read_indexes(found)?;
    let location = read_location(alloc, found)?;
    let place = read_region(alloc, found, regions)?;
    Ok(Parts {
        kind,
        level,
        rule_id: said.rule_id,
        rule_index: indexes.rule_index,
        component: indexes.component,
        invocation: indexes.invocation,
        message: said.message,
        uri: location.uri,
        base: location.base,
        artifact: location.artifact,
        guid,
        full: fingerprints.full,
        partial: fingerprints.partial,
        held,
        region: place.region,
        snippet: place.snippet,
    })
}

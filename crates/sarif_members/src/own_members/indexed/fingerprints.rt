//! The fingerprints of a result of an indexed log.
ghost use Rattle.std.specs.Prelude.{◌≡◌, ◌++◌, ◌∷◌, [], Ok, Err, Some, IfOk, IfSome, OnOk};
ghost use Rattle.serde_json.specs.Find.{as_object};
ghost use Rattle.sarif_read.specs.Internal.Listed.{value_at};
ghost use Rattle.sarif_members.specs.Fingerprints.{pairs_at, pairs_of};
ghost use Rattle.sarif_members.specs.Internal.Rising.{is_past};
ghost use Rattle.sarif_members.specs.OwnMembers.{own_fingerprints};
ghost use Rattle.sarif_model.specs.Members.{◌>>=◌ as and_then, of_kind};
ghost use Rattle.sarif_model.specs.Internal.Refusal.{IfFault};

use super::super::fingerprints::{Fingerprints, pairs_of_members};
use crate::passing::{members_in, string_of, take_member};
use crate::result_node::ResultNode;
use json_parts::Node;
use sarif_model::{Fault, Pairs, Refusal, Sequence, Text};
use std::alloc::{AllocError, Global};
use std::cmp::Ordering;

/// Whether a name is greater than the last of these.
fn is_past(pairs: &[(Text, Text)], name: &str) -> bool
    ensures { result ≡ is_past name.now pairs.now }
{
    match pairs.last() {
        None => true,
        Some(last) => match last.0.as_str().cmp(name) {
            Ordering::Less => true,
            Ordering::Equal | Ordering::Greater => false,
        },
    }
}

/// Adds a name and its string.
fn push_pair(alloc: Global, pairs: &mut Pairs, name: &str, text: &str) -> Result<(), AllocError>
    ensures { OnOk result (pairs.new ≡ pairs.old ++ (name.now, text.now) ∷ []) }
{
    let name = Text::copy_of(alloc, name)?;
    pairs.push((name, Text::copy_of(alloc, text)?))?;
    Ok(())
}

/// The names of an object with their strings, if all of its members are strings and each name is greater than the one before
/// it. Most logs are written so. No value is made.
fn rising_pairs(alloc: Global, node: &Node<'_, '_>) -> Result<Option<Pairs>, AllocError>
    ensures { IfOk result (λ found. IfSome found (λ pairs.
        and_then (of_kind Fault.BadFingerprint as_object (Some (value_at node.now))) pairs_of
        ≡ Ok pairs)) }
{
    let Some(mut members) = members_in(node) else {
        return Ok(None);
    };
    let mut pairs = Sequence::new(alloc);
    'members: while let Some((name, value)) = take_member(&mut members) {
        let Some(text) = string_of(&value) else {
            return Ok(None);
        };
        if !is_past(pairs.as_slice(), name) {
            return Ok(None);
        }
        push_pair(alloc, &mut pairs, name, text)?;
    }
    Ok(Some(pairs))
}

/// The pairs of a map of strings. A value is made of a map whose names have to be sorted.
fn pairs_of_node(alloc: Global, node: &Node<'_, '_>) -> Result<Pairs, Refusal<Fault>>
    ensures ok { IfOk result (λ pairs.
        and_then (of_kind Fault.BadFingerprint as_object (Some (value_at node.now))) pairs_of
        ≡ Ok pairs) }
    ensures err { IfFault result (λ fault.
        and_then (of_kind Fault.BadFingerprint as_object (Some (value_at node.now))) pairs_of
        ≡ Err fault) }
{
    if let Some(pairs) = rising_pairs(alloc, node)? {
        return Ok(pairs);
    }
    let value = node.to_value(alloc)?;
    match value.as_object() {
        Some(members) => pairs_of_members(alloc, members),
        None => Err(Refusal::Fault(Fault::BadFingerprint)),
    }
}

/// The map of strings `name` of a result; empty if it is missing. A null value is treated as missing.
fn read_pairs(
    alloc: Global,
    found: &ResultNode<'_, '_, '_>,
    name: &str,
) -> Result<Pairs, Refusal<Fault>>
    ensures ok { IfOk result (λ pairs. pairs_at name.now (value_at found.now) ≡ Ok pairs) }
    ensures err { IfFault result (λ fault. pairs_at name.now (value_at found.now) ≡ Err fault) }
{
    match found.member_at(name) {
        None => Ok(Sequence::new(alloc)),
        Some(member) => pairs_of_node(alloc, &member),
    }
}

/// The fingerprints of a result, or `BadFingerprint` (SARIF 2.1.0, result object, "fingerprints
/// property", "partialFingerprints property").
#[tactic(auto, unfolding(crate::specs::OwnMembers::own_fingerprints))]
pub(super) fn read_fingerprints(
    alloc: Global,
    found: &ResultNode<'_, '_, '_>,
) -> Result<Fingerprints, Refusal<Fault>>
    ensures ok { IfOk result (λ fingerprints.
        own_fingerprints (value_at found.now) ≡ Ok fingerprints) }
    ensures err { IfFault result (λ fault. own_fingerprints (value_at found.now) ≡ Err fault) }
{
    let full = read_pairs(alloc, found, "fingerprints")?;
    let partial = read_pairs(alloc, found, "partialFingerprints")?;
    Ok(Fingerprints { full, partial })
}

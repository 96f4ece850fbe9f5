//! The fingerprints of a result.
ghost use Rattle.std.specs.Prelude.{◌≡◌, Ok, Err, IfOk};
ghost use Rattle.serde_json.specs.View.{view as seen, members_view};
ghost use Rattle.sarif_members.specs.Fingerprints.{pairs_at, pairs_among};
ghost use Rattle.sarif_members.specs.OwnMembers.{own_fingerprints};
ghost use Rattle.sarif_model.specs.Internal.Refusal.{IfFault};

use sarif_model::members::member_at;
use sarif_model::{Fault, Pairs, Refusal, Sequence, Text};
use serde_json::{Map, Value};
use std::alloc::Global;

/// The two maps of fingerprints of a result.
#[derive(Drop)]
pub(super) struct Fingerprints {
    /// `fingerprints`.
    pub full: Pairs,
    /// `partialFingerprints`.
    pub partial: Pairs,
}

/// The names of these members with their strings, in order, without members that are null.
#[tactic(auto, using(crate::proofs::Pairs::pair_steps))]
pub(super) fn pairs_of_members(
    alloc: Global,
    members: &Map<String, Value>,
) -> Result<Pairs, Refusal<Fault>>
    ensures ok { IfOk result (λ pairs. pairs_among (members_view members.now.entries) ≡ Ok pairs) }
    ensures err { IfFault result
        (λ fault. pairs_among (members_view members.now.entries) ≡ Err fault) }
{
    let mut pairs = Sequence::new(alloc);
    for (name, value) in members.iter() {
        match value {
            Value::Null => {}
            Value::String(text) => {
                let name = Text::copy_of(alloc, name.as_str())?;
                pairs.push((name, Text::copy_of(alloc, text.as_str())?))?;
            }
            _ => return Err(Refusal::Fault(Fault::BadFingerprint)),
        }
    }
    Ok(pairs)
}

/// The map of strings `name` of a result; empty if it is missing. A null value is treated as missing.
fn read_pairs(alloc: Global, result_value: &Value, name: &str) -> Result<Pairs, Refusal<Fault>>
    ensures ok { IfOk result (λ pairs. pairs_at name.now (seen result_value.now) ≡ Ok pairs) }
    ensures err { IfFault result (λ fault. pairs_at name.now (seen result_value.now) ≡ Err fault) }
{
    match member_at(result_value, name) {
        None => Ok(Sequence::new(alloc)),
        Some(member) => match member.as_object() {
            Some(members) => pairs_of_members(alloc, members),
            None => Err(Refusal::Fault(Fault::BadFingerprint)),
        },
    }
}

/// The fingerprints of a result, or `BadFingerprint` (SARIF 2.1.0, result object, "fingerprints
/// property", "partialFingerprints property").
#[tactic(auto, unfolding(crate::specs::OwnMembers::own_fingerprints))]
pub(super) fn read_fingerprints(
    alloc: Global,
    result_value: &Value,
) -> Result<Fingerprints, Refusal<Fault>>
    ensures ok { IfOk result (λ fingerprints.
        own_fingerprints (seen result_value.now) ≡ Ok fingerprints) }
    ensures err { IfFault result (λ fault. own_fingerprints (seen result_value.now) ≡ Err fault) }
{
    let full = read_pairs(alloc, result_value, "fingerprints")?;
    let partial = read_pairs(alloc, result_value, "partialFingerprints")?;
    Ok(Fingerprints { full, partial })
}

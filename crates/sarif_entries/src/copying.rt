//! Copies of conditions. Their strings are shared.
ghost use Rattle.std.specs.Prelude.{◌≡◌, IfOk};

use crate::condition::{Condition, copy_of_pairs, copy_of_texts};
use sarif_model::Sequence;
use std::alloc::{AllocError, Global};

/// A copy of a condition.
fn copy_of_condition(alloc: Global, condition: &Condition) -> Result<Condition, AllocError>
    ensures { IfOk result (λ copy. copy ≡ condition.now) }
{
    Ok(match condition {
        Condition::Tool(text) => Condition::Tool(text.clone()?),
        Condition::RuleId(text) => Condition::RuleId(text.clone()?),
        Condition::Uri(text) => Condition::Uri(text.clone()?),
        Condition::UriPrefix(prefix) => Condition::UriPrefix(prefix.clone()?),
        Condition::Guid(guid) => Condition::Guid(*guid),
        Condition::Fingerprints(pairs) => Condition::Fingerprints(copy_of_pairs(
            alloc,
            pairs.as_slice(),
        )?),
        Condition::PartialFingerprints(pairs) => Condition::PartialFingerprints(copy_of_pairs(
            alloc,
            pairs.as_slice(),
        )?),
        Condition::Message(text) => Condition::Message(text.clone()?),
        Condition::MessageId(id) => Condition::MessageId(id.clone()?),
        Condition::MessageArguments(texts) => Condition::MessageArguments(copy_of_texts(
            alloc,
            texts.as_slice(),
        )?),
        Condition::Snippet(snippet) => Condition::Snippet(snippet.clone()?),
    })
}

/// Returns a copy of the conditions, whose strings are shared. Returns `AllocError` if memory for the list runs out.
pub fn copy_of_conditions(
    alloc: Global,
    conditions: &[Condition],
) -> Result<Sequence<Condition>, AllocError>
    ensures { IfOk result (λ copy. copy ≡ conditions.now) }
{
    let mut copy = Sequence::new(alloc);
    for condition in conditions {
        copy.push(copy_of_condition(alloc, condition)?)?;
    }
    Ok(copy)
}

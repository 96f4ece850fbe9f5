//! Numbers for values that are in the keys of many tiers: equal values have one number.
ghost use Rattle.std.specs.Prelude.{◌≡◌, IfOk, OnOk};
ghost use Rattle.std.specs.Fmt.{decimal};
ghost use Rattle.sarif_match.specs.Internal.Numbers.{Grows, HasNumber};

use indexmap::IndexMap;
use sarif_model::{Message, Pairs, Place, Text};
use std::alloc::{AllocError, Global};
use std::hash::BuildHasher;

/// A value of a result that is in the keys of several tiers.
#[derive(Clone, Copy, PartialEq, Eq, Hash)]
pub(crate) enum Value<'a> {
    /// A tool or a rule.
    Text(&'a Text),
    Place(&'a Place),
    Message(&'a Message),
    /// Partial fingerprints.
    Members(&'a Pairs),
    /// A snippet without white space. Each result has its own, so that its bytes are hashed and no digest is made.
    Snippet(&'a str),
}

/// The number of a value, as text: that of an equal value, if the table has one, otherwise the next. Values are
/// compared byte by byte.
pub(crate) fn number_of<'a, S: BuildHasher + Copy>(
    alloc: Global,
    numbers: &mut IndexMap<Value<'a>, Text, S>,
    value: Value<'a>,
) -> Result<Text, AllocError>
    ensures has { IfOk result (λ number. HasNumber numbers.new value.entry number) }
    ensures grows { OnOk result (Grows numbers.old numbers.new) }
{
    if let Some(number) = numbers.get(&value) {
        return Ok(number.clone()?);
    }
    let next = as_text(alloc, numbers.len())?;
    let kept = next.clone()?;
    numbers.insert(value, kept)?;
    Ok(next)
}

/// A number, as text.
fn as_text(alloc: Global, number: usize) -> Result<Text, AllocError>
    ensures { IfOk result (λ text. text ≡ decimal number) }
{
    Text::from_string(number.to_string(alloc)?)
}

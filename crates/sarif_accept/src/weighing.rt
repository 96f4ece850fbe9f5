//! How long the text of a new suppression file is at least, before anything of it is made.
ghost use Rattle.std.specs.Prelude.{◌≡◌, ◌+◌, ◌<◌, None, IfOk, IfSome, map, nat_lt, option_map};
ghost use Rattle.sarif_model.specs.Limits.{most_bytes};
ghost use Rattle.sarif_accept.specs.Internal.Weighing as said;

use crate::asked::conditions_for;
use sarif_entries::Condition;
use sarif_model::{MOST_BYTES, Record, Text};
use sarif_options::Renewal;
use std::alloc::{AllocError, Global};

/// What is left of this number of bytes after a string; `None` if the string has more.
fn left_after(left: usize, text: Option<&Text>) -> Option<usize>
    ensures some { IfSome result
        (λ rest. rest + said.weight_if (option_map (λ t. t.now) text.entry) ≡ left) }
    ensures none { result ≡ None → left < said.weight_if (option_map (λ t. t.now) text.entry) }
{
    match text {
        Some(text) => left.checked_sub(text.as_str().len()),
        None => Some(left),
    }
}

/// What is left of this number of bytes after the strings that these conditions name; `None` if they have more.
#[tactic(auto, using(crate::proofs::Weight::weight_left))]
fn left_after_conditions(left: usize, conditions: &[Condition]) -> Option<usize>
    ensures some { IfSome result (λ rest. rest + said.weight_in conditions.now ≡ left) }
    ensures none { result ≡ None → left < said.weight_in conditions.now }
{
    let mut rest = left;
    for condition in conditions {
        rest = left_after(rest, condition.text())?;
    }
    Some(rest)
}

/// What is left of this number of bytes after the strings of the entry that accepts the result; `None` if they have more.
fn left_after_entry(
    alloc: Global,
    left: usize,
    record: &Record,
    renewal: &Renewal,
) -> Result<Option<usize>, AllocError>
    ensures some { IfOk result (λ found. IfSome found
        (λ rest. rest + said.weight_of renewal.now «record».now ≡ left)) }
    ensures none { IfOk result
        (λ found. found ≡ None → left < said.weight_of renewal.now «record».now) }
{
    let conditions = conditions_for(alloc, record)?;
    Ok(match left_after(left, renewal.reason.as_ref()) {
        Some(left) => left_after_conditions(left, conditions.as_slice()),
        None => None,
    })
}

/// Returns whether the strings of the entries that accept these results have more than `MOST_BYTES` bytes.
#[tactic(auto, using(crate::proofs::Weight::weights_left))]
pub(crate) fn are_too_long(
    alloc: Global,
    added: &[&Record],
    renewal: &Renewal,
) -> Result<bool, AllocError>
    ensures { IfOk result (λ long. long
        ≡ nat_lt most_bytes (said.weights_of renewal.now (map (λ r. r.now) added.now))) }
{
    let mut left = MOST_BYTES;
    for record in added {
        match left_after_entry(alloc, left, record, renewal)? {
            Some(rest) => left = rest,
            None => return Ok(true),
        }
    }
    Ok(false)
}

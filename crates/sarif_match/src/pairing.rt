//! One tier: left-over results of both sides with equal keys are paired in their order.
ghost use Rattle.std.specs.Prelude.{◌≡◌, [], IfOk};
ghost use Rattle.sarif_match.specs.Pairing.{pairs_from};
ghost use Rattle.sarif_match.specs.Internal.Queues.{same_key};

use crate::queues::{queues_of, take_first};
use crate::tier_key::Key;
use std::alloc::{AllocError, Global};
use std::hash::BuildHasher;

/// Matches each current result with the baseline result that has the same key and the same number of earlier
/// results with that key. Both lists hold the unmatched results that have a key, in rising order.
pub(crate) fn pair_up<'a, S: BuildHasher + Copy>(
    alloc: Global,
    hasher: S,
    current: &[(u32, Key<'a>)],
    baseline: &[(u32, Key<'a>)],
) -> Result<Vec<(u32, u32)>, AllocError>
    ensures { IfOk result (λ pairs. pairs.items ≡ pairs_from same_key [] current.now baseline.now) }
{
    let mut queues = queues_of(alloc, hasher, baseline)?;
    let mut pairs = Vec::new(alloc);
    for (number, key) in current {
        if let Some(partner) = take_first(&mut queues, key) {
            pairs.push((*number, partner))?;
        }
    }
    Ok(pairs)
}

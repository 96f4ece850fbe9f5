//! The baseline results of a tier as queues by key.
ghost use Rattle.std.specs.Prelude.{◌≡◌, [], ◌∷◌, ◌++◌, IfOk, OnOk, drop, slice_get, if◌then◌else◌};
ghost use Rattle.sarif_match.specs.Pairing.{places};
ghost use Rattle.sarif_match.specs.Internal.Queues.{same_key, queue_at};
ghost use Rattle.sarif_match.specs.declared.tier_key.Key.{Key};

use crate::tier_key::Key;
use indexmap::IndexMap;
use std::alloc::{AllocError, Global};
use std::collections::VecDeque;
use std::hash::BuildHasher;

/// For each key the numbers of the results that have it, rising.
pub(crate) fn queues_of<'a, S: BuildHasher + Copy>(
    alloc: Global,
    hasher: S,
    baseline: &[(u32, Key<'a>)],
) -> Result<IndexMap<Key<'a>, VecDeque<u32>, S>, AllocError>
    ensures { IfOk result (λ queues. (q : Key)
        → queue_at queues q ≡ places same_key q baseline.now) }
{
    let mut queues = IndexMap::with_hasher(alloc, hasher);
    for (number, key) in baseline {
        add_last(alloc, &mut queues, *key, *number)?;
    }
    Ok(queues)
}

/// Puts the number at the end of the key's queue.
fn add_last<'a, S: BuildHasher + Copy>(
    alloc: Global,
    queues: &mut IndexMap<Key<'a>, VecDeque<u32>, S>,
    key: Key<'a>,
    number: u32,
) -> Result<(), AllocError>
    ensures { OnOk result ((q : Key) → queue_at queues.new q
        ≡ (if same_key key.entry q
        then queue_at queues.old q ++ number ∷ []
        else queue_at queues.old q)) }
{
    let queue = queues.entry(key)?.or_insert(VecDeque::new(alloc));
    queue.push_back(number)?;
    Ok(())
}

/// Takes the first number out of the key's queue.
pub(crate) fn take_first<'a, S: BuildHasher + Copy>(
    queues: &mut IndexMap<Key<'a>, VecDeque<u32>, S>,
    key: &Key<'a>,
) -> Option<u32>
    ensures first { result ≡ slice_get (queue_at queues.old key.now) 0 }
    ensures rest { (q : Key) → queue_at queues.new q
        ≡ (if same_key key.now q then drop 1 (queue_at queues.old q) else queue_at queues.old q) }
{
    let queue = queues.get_mut(key)?;
    queue.pop_front()
}

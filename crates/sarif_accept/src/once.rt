//! The results for which entries are added: each entry once.
ghost use Rattle.std.specs.Prelude.{◌≡◌, ◌≤◌, ◌<◌, ◌++◌, ◌∷◌, [], List, map, length, true, false, IfOk};
ghost use Rattle.std.specs.List.{list_any};
ghost use Rattle.sarif_model.specs.Limits.{most_entries};
ghost use Rattle.sarif_model.specs.Internal.Refusal.{IfFault};
ghost use Rattle.sarif_model.specs.declared.record.Record.{Record};
ghost use Rattle.sarif_model.specs.declared.fault.Fault.TheVariants.{TooMany};
ghost use Rattle.sarif_model.specs.declared.merge_fault.Cause.TheVariants.{Of};
ghost use Rattle.sarif_accept.specs.Adding.{is_said, once_each};
ghost use Rattle.sarif_accept.specs.Internal.Asked.{HasAsked, IsSameList};

use crate::asked::conditions_for;
use indexmap::IndexSet;
use sarif_entries::Condition;
use sarif_model::{Cause, Fault, MOST_ENTRIES, Record, Refusal, Sequence};
use std::alloc::{AllocError, Global};
use std::hash::BuildHasher;

/// Adds a record to the end of the list, unless the set has the conditions of its entry, and returns whether there was
/// room for it: a suppression file has at most `MOST_ENTRIES` entries. The set has the conditions of the list.
fn add_once<'a, S: BuildHasher + Copy>(
    alloc: Global,
    asked: &mut IndexSet<Sequence<Condition>, S>,
    added: &mut Vec<&'a Record>,
    record: &'a Record,
) -> Result<bool, AllocError>
    requires { HasAsked asked.old (map (λ r. r.now) added.old.items) }
    ensures asked { IfOk result (λ fits. fits ≡ true
        → HasAsked asked.new (map (λ r. r.now) added.new.items)) }
    ensures told { IfOk result (λ fits. fits ≡ true → (rest : List Record)
        → IsSameList (map (λ r. r.now) added.new.items) rest
        (map (λ r. r.now) added.old.items) («record».now ∷ rest)) }
    ensures few { IfOk result (λ fits. fits ≡ true → length added.old.items ≤ most_entries
        → length added.new.items ≤ most_entries) }
    ensures full { IfOk result (λ fits. fits ≡ false → (rest : List Record)
        → most_entries < length (map (λ r. r.now) added.old.items
        ++ once_each (map (λ r. r.now) added.old.items) («record».now ∷ rest))) }
{
    if !asked.insert(conditions_for(alloc, record)?)? {
        return Ok(true);
    }
    if added.len() >= MOST_ENTRIES {
        return Ok(false);
    }
    added.push(record)?;
    Ok(true)
}

/// Returns the accepted results for which entries are added: each, in order, unless its entry has the conditions of the
/// entry of an earlier one. The table of conditions hashes with `hasher`, on which the result doesn't depend.
/// Returns `TooMany` if there are more than `MOST_ENTRIES`, and `OutOfMemory` if memory runs out.
#[tactic(auto, using(crate::proofs::AskedOnce::goes_past))]
pub fn each_once<'a, S: BuildHasher + Copy>(
    alloc: Global,
    hasher: S,
    accepted: &[&'a Record],
) -> Result<Vec<&'a Record>, Refusal<Cause>>
    ensures ok { IfOk result (λ added. map (λ r. r.now) added.items
        ≡ once_each [] (map (λ r. r.now) accepted.now)) }
    ensures few { IfOk result (λ added. length added.items ≤ most_entries) }
    ensures err { IfFault result (λ cause. (cause ≡ Of TooMany)
        × (most_entries < length (once_each [] (map (λ r. r.now) accepted.now)))) }
{
    let mut asked: IndexSet<Sequence<Condition>, S> = IndexSet::with_hasher(alloc, hasher);
    let mut added = Vec::new(alloc);
    for record in accepted {
        if !add_once(alloc, &mut asked, &mut added, *record)? {
            return Err(Refusal::Fault(Cause::Of(Fault::TooMany)));
        }
    }
    Ok(added)
}

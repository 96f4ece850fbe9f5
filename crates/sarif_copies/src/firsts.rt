//! The finding of each result: the first result that is alike to it.
ghost use Rattle.std.specs.Prelude.{◌≡◌, ◌≤◌, ◌++◌, ◌∷◌, [], List, Some, cond, length, map, unwrap_or, IfOk, OnOk};
ghost use Rattle.std.specs.HashMap.{get};
ghost use Rattle.sarif_model.specs.Limits.{most_results};
ghost use Rattle.sarif_model.specs.declared.record.Record.{Record};
ghost use Rattle.sarif_copies.specs.Copies.{finding_of, findings_of, has_line};
ghost use Rattle.sarif_copies.specs.Internal.Table.{IsTableOf, same_whole};
ghost use Rattle.sarif_copies.specs.declared.whole_record.WholeRecord.{WholeRecord};

use crate::whole_record::{WholeRecord, whole_record};
use indexmap::IndexMap;
use sarif_model::Record;
use std::alloc::{AllocError, Global};
use std::hash::BuildHasher;

/// Whether a result has a URI and a region.
pub(crate) fn has_line(found: &Record) -> bool
    ensures { result ≡ has_line found.now }
{
    found.place.uri.is_some() && found.region.is_some()
}

/// The number that the table has for this key. If it has none, it has `number` from now on.
fn number_for<'a, S: BuildHasher + Copy>(
    table: &mut IndexMap<WholeRecord<'a, 'a>, u32, S>,
    key: WholeRecord<'a, 'a>,
    number: u32,
) -> Result<u32, AllocError>
    ensures first { IfOk result
        (λ first. first ≡ unwrap_or (get same_whole table.old key.entry) number) }
    ensures kept { IfOk result (λ first. (q : WholeRecord) → get same_whole table.new q
        ≡ cond (same_whole key.entry q) (Some first) (get same_whole table.old q)) }
{
    if let Some(first) = table.get(&key) {
        return Ok(*first);
    }
    table.insert(key, number)?;
    Ok(number)
}

/// The number of the first result that is alike to this one, which is its own `number` if it is the first. The table has
/// the results before it, and then this one too.
fn add_result<'a, S: BuildHasher + Copy>(
    table: &mut IndexMap<WholeRecord<'a, 'a>, u32, S>,
    found: &'a Record,
    number: u32,
) -> Result<u32, AllocError>
    ensures first { (before : List Record) → length before ≡ number → IsTableOf before table.old
        → IfOk result (λ first. first ≡ finding_of before found.now) }
    ensures added { (before : List Record) → length before ≡ number → IsTableOf before table.old
        → OnOk result (IsTableOf (before ++ found.now ∷ []) table.new) }
{
    if !has_line(found) {
        return Ok(number);
    }
    let first = number_for(table, whole_record(found), number)?;
    Ok(first)
}

/// For each result the number of its finding: the first result that is alike to it, which is the result itself if it is
/// the first. Two results are alike if they have a URI and a region, and are equal in each field. The table hashes with
/// `hasher`, on which the findings don't depend. Returns `AllocError` if memory runs out.
pub fn findings<S: BuildHasher + Copy>(
    alloc: Global,
    hasher: S,
    records: &[Record],
) -> Result<Vec<u32>, AllocError>
    requires { length records.now ≤ most_results }
    ensures { IfOk result (λ firsts. firsts.items ≡ findings_of records.now) }
{
    let mut table = IndexMap::with_hasher(alloc, hasher);
    let mut firsts = Vec::new(alloc);
    let mut number = 0;
    for found in records {
        firsts.push(add_result(&mut table, found, number)?)?;
        number += 1;
    }
    Ok(firsts)
}

/// For each of these results the number of its finding, as [`findings`] returns it.
pub(crate) fn findings_among<'a, S: BuildHasher + Copy>(
    alloc: Global,
    hasher: S,
    records: &[&'a Record],
) -> Result<Vec<u32>, AllocError>
    requires { length records.now ≤ most_results }
    ensures firsts { IfOk result
        (λ firsts. firsts.items ≡ findings_of (map (λ r. r.now) records.now)) }
    ensures count { IfOk result (λ firsts. length firsts.items ≡ length records.now) }
{
    let mut table = IndexMap::with_hasher(alloc, hasher);
    let mut firsts = Vec::new(alloc);
    let mut number = 0;
    for found in records {
        firsts.push(add_result(&mut table, *found, number)?)?;
        number += 1;
    }
    Ok(firsts)
}

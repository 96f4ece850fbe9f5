//! Findings and copies apart.
ghost use Rattle.std.specs.Prelude.{◌≡◌, ◌≤◌, IfOk, length, map, slice_index_or};
ghost use Rattle.sarif_model.specs.Limits.{most_results};
ghost use Rattle.sarif_copies.specs.Copies.{copies_from, copies_of, findings_before, numbers_of};

use crate::firsts::findings_among;
use sarif_model::Record;
use std::alloc::{AllocError, Global};
use std::hash::BuildHasher;

/// Which of some results are copies, and where the findings of all are.
#[derive(Drop)]
pub struct Apart {
    /// Whether each result is a copy.
    pub copies: Vec<bool>,
    /// For each result the number of its finding, where the findings alone are counted.
    pub numbers: Vec<u32>,
}

/// Whether each result is a copy: whether its finding is another one.
fn list_copies(alloc: Global, firsts: &[u32]) -> Result<Vec<bool>, AllocError>
    requires { length firsts.now ≤ most_results }
    ensures copies { IfOk result (λ copies. copies.items ≡ copies_from 0 firsts.now) }
    ensures count { IfOk result (λ copies. length copies.items ≡ length firsts.now) }
{
    let mut copies = Vec::with_capacity(alloc, firsts.len())?;
    let mut number = 0;
    for first in firsts {
        copies.push(*first != number)?;
        number += 1;
    }
    Ok(copies)
}

/// For each result how many findings are before it.
fn count_before(alloc: Global, copies: &[bool]) -> Result<Vec<u32>, AllocError>
    requires { length copies.now ≤ most_results }
    ensures { IfOk result (λ counts. counts.items ≡ findings_before 0 copies.now) }
{
    let mut counts = Vec::with_capacity(alloc, copies.len())?;
    let mut count = 0;
    for is_copy in copies {
        counts.push(count)?;
        if !*is_copy {
            count += 1;
        }
    }
    Ok(counts)
}

/// The count at this number, or 0 past the end.
fn count_at(counts: &[u32], number: u32) -> u32
    ensures { result ≡ slice_index_or counts.now number 0 }
{
    match counts.get(number as usize) {
        Some(count) => *count,
        None => 0,
    }
}

/// The count at each of these numbers, or 0 past the end.
fn pick_each(alloc: Global, numbers: &[u32], counts: &[u32]) -> Result<Vec<u32>, AllocError>
    ensures { IfOk result
        (λ picked. picked.items ≡ map (λ n. slice_index_or counts.now n 0) numbers.now) }
{
    let mut picked = Vec::with_capacity(alloc, numbers.len())?;
    for number in numbers {
        picked.push(count_at(counts, *number))?;
    }
    Ok(picked)
}

/// Which of these results are copies, and where the findings of all are. The table hashes with `hasher`, on which the
/// return value doesn't depend. Returns `AllocError` if memory runs out.
pub fn set_apart<'a, S: BuildHasher + Copy>(
    alloc: Global,
    hasher: S,
    records: &[&'a Record],
) -> Result<Apart, AllocError>
    requires { length records.now ≤ most_results }
    ensures copies { IfOk result
        (λ apart. apart.copies.items ≡ copies_of (map (λ r. r.now) records.now)) }
    ensures numbers { IfOk result
        (λ apart. apart.numbers.items ≡ numbers_of (map (λ r. r.now) records.now)) }
{
    let firsts = findings_among(alloc, hasher, records)?;
    let copies = list_copies(alloc, &firsts)?;
    let counts = count_before(alloc, &copies)?;
    let numbers = pick_each(alloc, &firsts, &counts)?;
    Ok(Apart { copies, numbers })
}

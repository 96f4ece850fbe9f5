//! The entries that are filed under a URI prefix. One pass over a URI computes the hashes of all its prefixes, and
//! the entries are found by the hashes of theirs. So the result may contain entries that do not match, but it
//! misses none.
ghost use Rattle.std.specs.Prelude.{◌≡◌, ◌≤◌, ◌++◌, ◌||◌, [], ℕ, length, nat_eq, IfOk, OnOk};
ghost use Rattle.std.specs.List.{flat_map};
ghost use Rattle.std.specs.Option.{option_map_or};
ghost use Rattle.sarif_filing.specs.Numbers.{numbers_from, numbers_at};
ghost use Rattle.sarif_filing.specs.Internal.Prefixes as said;
ghost use Rattle.sarif_model.specs.Limits.{most_entries};

use crate::numbers::{add_number, numbers_for};
use indexmap::IndexMap;
use sarif_entries::Entry;
use sarif_model::Text;
use std::alloc::{AllocError, Global};
use std::hash::BuildHasher;

/// Hashes are numbers below it; it is prime, the largest below 2^32.
const MODULUS: u64 = 4_294_967_291;

/// The numbers of the entries, rising, by the hash of the prefix that each is filed under.
#[derive(Drop)]
pub struct PrefixTable<S: BuildHasher + Copy> {
    /// What the hashes are made with. It comes of the hasher, so nobody can know it who writes a
    /// file.
    base: u32,
    /// For each number of bytes, whether a prefix has that length.
    lengths: Vec<bool>,
    by_hash: IndexMap<u32, Vec<u32>, S>,
}

impl<S: BuildHasher + Copy> PrefixTable<S> {
    /// Returns the table of at most `MOST_ENTRIES` entries. It hashes with `hasher`, and the hashes of the prefixes depend
    /// on `hasher` too. Returns `AllocError` if memory for it runs out.
    pub fn new(alloc: Global, hasher: S, entries: &[Entry]) -> Result<PrefixTable<S>, AllocError>
        requires { length entries.now ≤ most_entries }
        ensures { IfOk result (said.IsPrefixTable entries.now) }
    {
        let base = (hasher.hash_one(0u64) % MODULUS) as u32;
        Ok(PrefixTable {
            base,
            lengths: lengths_of(alloc, entries)?,
            by_hash: numbers_by_hash(alloc, hasher, base, entries)?,
        })
    }

    /// Adds the numbers of the entries whose prefix is found for a prefix of the URI; adds nothing without a URI. Each
    /// entry whose prefix the URI begins with is among them, and there may be others. Returns `AllocError` if memory
    /// runs out.
    pub fn add_for(&self, found: &mut Vec<u32>, uri: &Option<Text>) -> Result<(), AllocError>
        ensures { OnOk result (found.new.items
            ≡ found.old.items ++ option_map_or (said.found_for self.now) uri.now []) }
    {
        let Some(uri) = uri else {
            return Ok(());
        };
        let bytes = uri.as_str().as_bytes();
        let longest = self.lengths.len().min(bytes.len());
        self.add_beginnings(found, &bytes[..longest])
    }

    /// Adds the numbers of the entries under whose prefix a beginning of the text is found.
    fn add_beginnings(&self, found: &mut Vec<u32>, text: &[u8]) -> Result<(), AllocError>
        ensures { OnOk result (found.new.items ≡ found.old.items
            ++ flat_map (said.found_under self.now) (said.beginnings text.now)) }
    {
        let mut hash = 0;
        self.add_with_hash(found, 0, hash)?;
        for (at, byte) in text.iter().enumerate() {
            hash = next_hash(self.base, hash, *byte);
            self.add_with_hash(found, at + 1, hash)?;
        }
        Ok(())
    }

    /// Adds the numbers of the entries whose prefix has that length and that hash.
    fn add_with_hash(
        &self,
        found: &mut Vec<u32>,
        length: usize,
        hash: u32,
    ) -> Result<(), AllocError>
        ensures { OnOk result (found.new.items
            ≡ found.old.items ++ said.found_with self.now length hash) }
    {
        if is_listed(self.lengths.as_slice(), length) {
            found.extend_from_slice(numbers_for(&self.by_hash, &hash))?;
        }
        Ok(())
    }
}

/// Returns the hash of a string with one more byte.
#[tactic(auto, unfolding(crate::specs::Internal::Prefixes::next_hash))]
fn next_hash(base: u32, hash: u32, byte: u8) -> u32
    ensures { result ≡ said.next_hash base hash byte }
{
    let product = u64::from(base) * u64::from(hash);
    ((product + u64::from(byte) + 1) % MODULUS) as u32
}

/// Returns the hash of a string.
fn hash_of(base: u32, text: &[u8]) -> u32
    ensures { result ≡ said.hash_of base text.now }
{
    let mut hash = 0;
    for byte in text {
        hash = next_hash(base, hash, *byte);
    }
    hash
}

/// Whether the length is marked.
fn is_listed(lengths: &[bool], length: usize) -> bool
    ensures { result ≡ said.is_listed lengths.now length }
{
    match lengths.get(length) {
        Some(listed) => *listed,
        None => false,
    }
}

/// Marks the length.
fn mark_length(lengths: &mut Vec<bool>, length: usize) -> Result<(), AllocError>
    ensures { OnOk result ((n : ℕ) → said.is_listed lengths.new.items n
        ≡ (nat_eq length n || said.is_listed lengths.old.items n)) }
{
    if length < lengths.len() {
        lengths[length] = true;
        return Ok(());
    }
    lengths.resize(length, false)?;
    lengths.push(true)?;
    Ok(())
}

/// The lengths of the prefixes that entries are filed under.
fn lengths_of(alloc: Global, entries: &[Entry]) -> Result<Vec<bool>, AllocError>
    ensures { IfOk result (λ lengths. (n : ℕ)
        → said.is_listed lengths.items n ≡ said.is_length n entries.now) }
{
    let mut lengths = Vec::new(alloc);
    for entry in entries {
        if let Some(prefix) = entry.prefix_key() {
            mark_length(&mut lengths, prefix.as_str().len())?;
        }
    }
    Ok(lengths)
}

/// For each hash the numbers of the entries that are filed under a prefix that has it, rising.
fn numbers_by_hash<S: BuildHasher + Copy>(
    alloc: Global,
    hasher: S,
    base: u32,
    entries: &[Entry],
) -> Result<IndexMap<u32, Vec<u32>, S>, AllocError>
    requires { length entries.now ≤ most_entries }
    ensures { IfOk result (λ table. (q : ℕ)
        → numbers_at nat_eq table q ≡ numbers_from (said.asks_for_hash base q) 0 entries.now) }
{
    let mut table: IndexMap<u32, Vec<u32>, S> = IndexMap::with_hasher(alloc, hasher);
    for (number, entry) in entries.iter().enumerate() {
        if let Some(prefix) = entry.prefix_key() {
            let hash = hash_of(base, prefix.as_str().as_bytes());
            add_number(alloc, &mut table, hash, number as u32)?;
        }
    }
    Ok(table)
}

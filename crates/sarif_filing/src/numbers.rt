//! Lists of the numbers of entries, by what the entries are filed under.
ghost use Rattle.std.specs.Prelude.{◌≡◌, ◌++◌, ◌∷◌, [], OnOk, if◌then◌else◌};
ghost use Rattle.sarif_filing.specs.Numbers.{numbers_at};

use indexmap::IndexMap;
use std::alloc::{AllocError, Global};
use std::hash::{BuildHasher, Hash};

/// Adds the number after those that the table has for the key.
pub(crate) fn add_number<K: Eq + Hash + Drop, S: BuildHasher + Copy>(
    alloc: Global,
    table: &mut IndexMap<K, Vec<u32>, S>,
    key: K,
    number: u32,
) -> Result<(), AllocError>
    ensures { OnOk result ((q : K) → numbers_at K.eq table.new q
        ≡ numbers_at K.eq table.old q ++ (if K.eq key q then number ∷ [] else [])) }
{
    if let Some(numbers) = table.get_mut(&key) {
        numbers.push(number)?;
        return Ok(());
    }
    let mut numbers = Vec::new(alloc);
    numbers.push(number)?;
    table.insert(key, numbers)?;
    Ok(())
}

/// Returns the numbers of the entries that are filed under `key`. If none is filed, no key is hashed.
pub(crate) fn numbers_for<'a, K: Eq + Hash, S: BuildHasher + Copy>(
    table: &'a IndexMap<K, Vec<u32>, S>,
    key: &K,
) -> &'a [u32]
    ensures { result.now ≡ numbers_at K.eq table.now key.now }
{
    if table.is_empty() {
        return &[];
    }
    match table.get(key) {
        Some(numbers) => numbers.as_slice(),
        None => &[],
    }
}

//! An index of results by the names of their fingerprints.
ghost use Rattle.std.specs.Prelude.{◌≡◌, ◌<◌, ◌^◌, ℕ, List, [], ◌++◌, IfOk, OnOk, if◌then◌else◌, length, bytes_eq};
ghost use Rattle.sarif_match.specs.Key.{key_of};
ghost use Rattle.sarif_match.specs.Internal.Named.{with_parts, group_at, put_once, AreNumberedBelow};
ghost use Rattle.sarif_match.specs.Partners.{keyed_from, with_key};
ghost use Rattle.sarif_match.specs.declared.tier.Tier.TheVariants.{Fingerprint};

use crate::tier_key::Key;
use indexmap::IndexMap;
use sarif_model::{Record, Text};
use std::alloc::{AllocError, Global};
use std::hash::BuildHasher;

/// For each fingerprint name the results that have it, with their numbers and keys, in order.
pub(crate) fn by_name<'a, S: BuildHasher + Copy>(
    alloc: Global,
    hasher: S,
    findings: &'a [Record],
) -> Result<IndexMap<&'a Text, Vec<(u32, Key<'a>)>, S>, AllocError>
    requires { length findings.now < 2 ^ 32 }
    ensures { IfOk result (λ named. (name : List ℕ) → with_parts (group_at named name)
        ≡ keyed_from (Fingerprint name) 0 findings.now) }
{
    let mut named = IndexMap::with_hasher(alloc, hasher);
    for (number, finding) in findings.iter().enumerate() {
        add_finding(alloc, &mut named, number as u32, finding)?;
    }
    Ok(named)
}

/// Puts a result at the end of the group of each of its fingerprint names.
fn add_finding<'a, S: BuildHasher + Copy>(
    alloc: Global,
    named: &mut IndexMap<&'a Text, Vec<(u32, Key<'a>)>, S>,
    number: u32,
    finding: &'a Record,
) -> Result<(), AllocError>
    requires { (name : List ℕ) → AreNumberedBelow number (with_parts (group_at named.old name)) }
    ensures { OnOk result ((name : List ℕ) → with_parts (group_at named.new name)
        ≡ with_parts (group_at named.old name)
        ++ with_key number (key_of finding.now (Fingerprint name)) []) }
{
    for (name, value) in finding.full.as_slice() {
        let key = Key::Fingerprint {
            tool: &finding.tool,
            name,
            value,
        };
        add_key(alloc, named, name, number, key)?;
    }
    Ok(())
}

/// Adds a key to the end of a name's group. If a result has the name twice, only its first key is added.
fn add_key<'a, S: BuildHasher + Copy>(
    alloc: Global,
    named: &mut IndexMap<&'a Text, Vec<(u32, Key<'a>)>, S>,
    name: &'a Text,
    number: u32,
    key: Key<'a>,
) -> Result<(), AllocError>
    ensures { OnOk result ((q : List ℕ) → group_at named.new q
        ≡ (if bytes_eq name.now q
        then put_once number key.entry (group_at named.old q)
        else group_at named.old q)) }
{
    if let Some(group) = named.get_mut(&name) {
        put_last(group, number, key)?;
        return Ok(());
    }
    let group = vec![in alloc; (number, key)]?;
    named.insert(name, group)?;
    Ok(())
}

/// Puts a key at the end, unless the last one has the same number.
fn put_last<'a>(
    group: &mut Vec<(u32, Key<'a>)>,
    number: u32,
    key: Key<'a>,
) -> Result<(), AllocError>
    ensures { OnOk result (group.new.items ≡ put_once number key.entry group.old.items) }
{
    if let Some(last) = group.last() {
        if last.0 == number {
            return Ok(());
        }
    }
    group.push((number, key))?;
    Ok(())
}

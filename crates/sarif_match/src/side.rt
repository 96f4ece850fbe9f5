//! One side of a matching, and what a tier finds left over there.
ghost use Rattle.std.specs.Prelude.{◌≡◌, ◌<◌, ◌^◌, ◌++◌, [], false, IfOk, OnOk, length, slice_index_or};
ghost use Rattle.std.specs.Option.{option_and_then, option_copied};
ghost use Rattle.sarif_match.specs.Key.{key_of};
ghost use Rattle.sarif_match.specs.Internal.Named.{with_parts, group_at, keyed_at, unmarked};
ghost use Rattle.sarif_match.specs.Internal.Paired.{key_at};
ghost use Rattle.sarif_match.specs.Partners.{keyed_from, with_key};

use crate::keys::key_at;
use crate::named::by_name;
use crate::tier::Tier;
use crate::tier_key::Key;
use indexmap::IndexMap;
use sarif_model::{Record, Text};
use std::alloc::{AllocError, Global};
use std::hash::BuildHasher;

/// The results of one side, with their index by fingerprint names.
#[derive(Drop)]
pub(crate) struct IndexedSide<'a, S: BuildHasher + Copy> {
    pub(crate) findings: &'a [Record],
    pub(crate) named: IndexMap<&'a Text, Vec<(u32, Key<'a>)>, S>,
}

impl<'a, S: BuildHasher + Copy> IndexedSide<'a, S> {
    ghost use Rattle.sarif_match.specs.Internal.Side.{IsIndexed};

    /// Indexes the results.
    pub(crate) fn new(
        alloc: Global,
        hasher: S,
        findings: &'a [Record],
    ) -> Result<IndexedSide<'a, S>, AllocError>
        requires { length findings.now < 2 ^ 32 }
        ensures indexed { IfOk result IsIndexed }
        ensures findings { IfOk result (λ side. side.findings.now ≡ findings.now) }
    {
        let named = by_name(alloc, hasher, findings)?;
        Ok(IndexedSide { findings, named })
    }

    /// The results that have a key at the tier and no mark, with their numbers and keys, in order.
    /// The tier of a fingerprint visits only those that carry its name.
    pub(crate) fn left_over(
        &self,
        alloc: Global,
        tier: &Tier,
        marks: &[bool],
    ) -> Result<Vec<(u32, Key<'a>)>, AllocError>
        requires { IsIndexed self.now }
        ensures { IfOk result (λ left. with_parts left.items
            ≡ unmarked marks.now (keyed_from tier.now 0 self.now.findings.now)) }
    {
        match tier {
            Tier::Fingerprint(name) => unmarked_named(alloc, &self.named, name, marks),
            Tier::FingerprintHere(name) => {
                named_at(alloc, tier, &self.named, name, self.findings, marks)
            }
            _ => unmarked_at(alloc, tier, self.findings, marks),
        }
    }
}

/// The results that have a fingerprint with this name and no mark.
fn unmarked_named<'a, S: BuildHasher + Copy>(
    alloc: Global,
    named: &IndexMap<&'a Text, Vec<(u32, Key<'a>)>, S>,
    name: &Text,
    marks: &[bool],
) -> Result<Vec<(u32, Key<'a>)>, AllocError>
    ensures { IfOk result (λ left. left.items ≡ unmarked marks.now (group_at named.now name.now)) }
{
    match (&*named).get(&name) {
        Some(group) => unmarked_of(alloc, group, marks),
        None => Ok(Vec::new(alloc)),
    }
}

/// The results that have a fingerprint with this name and no mark, with their keys at the tier.
fn named_at<'a, S: BuildHasher + Copy>(
    alloc: Global,
    tier: &Tier,
    named: &IndexMap<&'a Text, Vec<(u32, Key<'a>)>, S>,
    name: &Text,
    findings: &'a [Record],
    marks: &[bool],
) -> Result<Vec<(u32, Key<'a>)>, AllocError>
    ensures { IfOk result (λ left. with_parts left.items ≡ unmarked marks.now
        (keyed_at tier.now findings.now (group_at named.now name.now))) }
{
    match (&*named).get(&name) {
        Some(group) => grouped_at(alloc, tier, group, findings, marks),
        None => Ok(Vec::new(alloc)),
    }
}

/// The results of a group that have no mark, with their keys at the tier.
fn grouped_at<'a>(
    alloc: Global,
    tier: &Tier,
    group: &[(u32, Key<'a>)],
    findings: &'a [Record],
    marks: &[bool],
) -> Result<Vec<(u32, Key<'a>)>, AllocError>
    ensures { IfOk result (λ left. with_parts left.items
        ≡ unmarked marks.now (keyed_at tier.now findings.now group.now)) }
{
    let mut left = Vec::new(alloc);
    for (number, _) in group {
        push_numbered(&mut left, tier, findings, *number, marks)?;
    }
    Ok(left)
}

/// Puts the result with this number at the end, where it has no mark and a key at the tier.
fn push_numbered<'a>(
    left: &mut Vec<(u32, Key<'a>)>,
    tier: &Tier,
    findings: &'a [Record],
    number: u32,
    marks: &[bool],
) -> Result<(), AllocError>
    ensures { OnOk result (with_parts left.new.items ≡ with_parts left.old.items
        ++ unmarked marks.now (with_key number (key_at tier.now findings.now number) [])) }
{
    push_if_there(left, tier, number, findings.get(number as usize), marks)
}

/// Puts a result at the end, if there is one, where it has no mark and a key at the tier.
fn push_if_there<'a>(
    left: &mut Vec<(u32, Key<'a>)>,
    tier: &Tier,
    number: u32,
    finding: Option<&'a Record>,
    marks: &[bool],
) -> Result<(), AllocError>
    ensures { OnOk result (with_parts left.new.items ≡ with_parts left.old.items
        ++ unmarked marks.now (with_key number
        (option_and_then (λ r. key_of r tier.now) (option_copied finding.entry)) [])) }
{
    match finding {
        Some(finding) => push_unmarked(left, tier, number, finding, marks),
        None => Ok(()),
    }
}

/// Returns the results without a mark.
fn unmarked_of<'a>(
    alloc: Global,
    keyed: &[(u32, Key<'a>)],
    marks: &[bool],
) -> Result<Vec<(u32, Key<'a>)>, AllocError>
    ensures { IfOk result (λ left. left.items ≡ unmarked marks.now keyed.now) }
{
    let left = keyed.iter().filter(|entry| !is_marked(marks, entry.0));
    left.copied().collect(alloc)
}

/// The results that have no mark and a key at the tier, found by going through all of them.
fn unmarked_at<'a>(
    alloc: Global,
    tier: &Tier,
    findings: &'a [Record],
    marks: &[bool],
) -> Result<Vec<(u32, Key<'a>)>, AllocError>
    requires { length findings.now < 2 ^ 32 }
    ensures { IfOk result (λ left. with_parts left.items
        ≡ unmarked marks.now (keyed_from tier.now 0 findings.now)) }
{
    let mut left = Vec::new(alloc);
    for (number, finding) in findings.iter().enumerate() {
        push_unmarked(&mut left, tier, number as u32, finding, marks)?;
    }
    Ok(left)
}

/// Puts a result at the end, where it has no mark and a key at the tier.
fn push_unmarked<'a>(
    left: &mut Vec<(u32, Key<'a>)>,
    tier: &Tier,
    number: u32,
    finding: &'a Record,
    marks: &[bool],
) -> Result<(), AllocError>
    ensures { OnOk result (with_parts left.new.items ≡ with_parts left.old.items
        ++ unmarked marks.now (with_key number (key_of finding.now tier.now) [])) }
{
    if is_marked(marks, number) {
        return Ok(());
    }
    if let Some(key) = key_at(finding, tier) {
        left.push((number, key))?;
    }
    Ok(())
}

/// Whether the result with this number has a mark. Past the end there are none.
fn is_marked(marks: &[bool], number: u32) -> bool
    ensures { result ≡ slice_index_or marks.now number false }
{
    marks.get(number as usize).copied().unwrap_or(false)
}

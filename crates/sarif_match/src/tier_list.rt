//! The tiers of a merge, in order.
ghost use Rattle.std.specs.Prelude.{◌≡◌, ◌++◌, IfOk, OnOk, map, reverse};
ghost use Rattle.std.specs.BTreeSet.{keys};
ghost use Rattle.sarif_match.specs.Tiers.{names_of, with_names, tiers_in, tiers_of};
ghost use Rattle.sarif_match.specs.declared.tier.Tier.TheVariants.{Fingerprint};

use crate::finer_tiers::finer_tiers;
use crate::tier::Tier;
use sarif_evidence::MatchingVersion;
use sarif_model::{Record, Text};
use std::alloc::{AllocError, Global};
use std::collections::BTreeSet;

/// Returns the tiers of a merge of these results in a version, in order. Each tier of a fingerprint name occurs once
/// for each name of either list, the greatest name first; in version 3 only names with a value that isn't the empty
/// string count. Returns `AllocError` if memory for the list runs out.
pub fn tiers(
    alloc: Global,
    current: &[Record],
    baseline: &[Record],
    version: MatchingVersion,
) -> Result<Vec<Tier>, AllocError>
    ensures { IfOk result (λ tiers. tiers.items ≡ tiers_in version current.now baseline.now) }
{
    match version {
        MatchingVersion::Two => tiers_of(alloc, current, baseline),
        MatchingVersion::Three => finer_tiers(alloc, current, baseline),
    }
}

/// The tiers of version 2.
pub(crate) fn tiers_of(
    alloc: Global,
    current: &[Record],
    baseline: &[Record],
) -> Result<Vec<Tier>, AllocError>
    ensures { IfOk result (λ tiers. tiers.items ≡ tiers_of current.now baseline.now) }
{
    let mut names = BTreeSet::new(alloc);
    add_names(&mut names, current)?;
    add_names(&mut names, baseline)?;
    let mut tiers = vec![in alloc; Tier::Guid]?;
    push_fingerprints(alloc, &mut tiers, &names)?;
    tiers.push(Tier::PartialHere)?;
    tiers.push(Tier::PartialMoved)?;
    tiers.push(Tier::Place)?;
    Ok(tiers)
}

/// Adds the names of these results' fingerprints.
fn add_names<'a>(names: &mut BTreeSet<&'a Text>, findings: &'a [Record]) -> Result<(), AllocError>
    ensures { OnOk result (map (λ name. name.now) (keys names.new)
        ≡ with_names (map (λ name. name.now) (keys names.old)) (names_of findings.now)) }
{
    for finding in findings {
        add_names_of(names, finding.full.as_slice())?;
    }
    Ok(())
}

/// Adds the names of these fingerprints.
fn add_names_of<'a>(
    names: &mut BTreeSet<&'a Text>,
    fingerprints: &'a [(Text, Text)],
) -> Result<(), AllocError>
    ensures { OnOk result (map (λ name. name.now) (keys names.new)
        ≡ with_names (map (λ name. name.now) (keys names.old))
        (map (λ pair. pair.0) fingerprints.now)) }
{
    for (name, _) in fingerprints {
        names.insert(name)?;
    }
    Ok(())
}

/// Puts the tiers of these names at the end, the greatest first.
pub(crate) fn push_fingerprints(
    alloc: Global,
    tiers: &mut Vec<Tier>,
    names: &BTreeSet<&Text>,
) -> Result<(), AllocError>
    ensures { OnOk result (tiers.new.items
        ≡ tiers.old.items ++ map Fingerprint (reverse (map (λ name. name.now) (keys names.now)))) }
{
    let descending = falling(alloc, names)?;
    for name in &descending {
        tiers.push(Tier::Fingerprint((*name).clone()?))?;
    }
    Ok(())
}

/// The names, the greatest first.
pub(crate) fn falling<'a>(
    alloc: Global,
    names: &BTreeSet<&'a Text>,
) -> Result<Vec<&'a Text>, AllocError>
    ensures { IfOk result (λ falling. falling.items ≡ reverse (keys names.now)) }
{
    names.iter().rev().copied().collect(alloc)
}

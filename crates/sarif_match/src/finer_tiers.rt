//! The tiers of version 3, in order.
ghost use Rattle.std.specs.Prelude.{◌≡◌, [], ◌∷◌, ◌++◌, IfOk, OnOk, map, reverse};
ghost use Rattle.std.specs.BTreeSet.{keys};
ghost use Rattle.sarif_evidence.specs.Seen.{filled, seen};
ghost use Rattle.sarif_match.specs.Tiers.{names_of, with_names, tiers_in};
ghost use Rattle.sarif_match.specs.declared.tier.Tier.TheVariants.{FingerprintHere};
ghost use Rattle.sarif_evidence.specs.declared.version.MatchingVersion.TheVariants.{Three};

use crate::tier::Tier;
use crate::tier_list::{falling, push_fingerprints};
use sarif_evidence::is_filled;
use sarif_model::{Record, Text};
use std::alloc::{AllocError, Global};
use std::collections::BTreeSet;

/// The tiers of version 3.
pub(crate) fn finer_tiers(
    alloc: Global,
    current: &[Record],
    baseline: &[Record],
) -> Result<Vec<Tier>, AllocError>
    ensures { IfOk result (λ tiers. tiers.items ≡ tiers_in Three current.now baseline.now) }
{
    let mut names = BTreeSet::new(alloc);
    add_filled_names(&mut names, current)?;
    add_filled_names(&mut names, baseline)?;
    let mut tiers = vec![in alloc; Tier::Guid]?;
    tiers.push(Tier::Same)?;
    tiers.push(Tier::SameText)?;
    push_fingerprints_here(alloc, &mut tiers, &names)?;
    tiers.push(Tier::PartialHere)?;
    push_fingerprints(alloc, &mut tiers, &names)?;
    tiers.push(Tier::PartialMoved)?;
    tiers.push(Tier::PlaceText)?;
    tiers.push(Tier::Place)?;
    tiers.push(Tier::PlaceLeft)?;
    Ok(tiers)
}

/// Adds the names of these results' filled fingerprints.
fn add_filled_names<'a>(
    names: &mut BTreeSet<&'a Text>,
    findings: &'a [Record],
) -> Result<(), AllocError>
    ensures { OnOk result (map (λ name. name.now) (keys names.new)
        ≡ with_names (map (λ name. name.now) (keys names.old)) (names_of (map seen findings.now))) }
{
    for finding in findings {
        add_filled_names_of(names, finding.full.as_slice())?;
    }
    Ok(())
}

/// Adds the names of the filled ones of these fingerprints.
fn add_filled_names_of<'a>(
    names: &mut BTreeSet<&'a Text>,
    fingerprints: &'a [(Text, Text)],
) -> Result<(), AllocError>
    ensures { OnOk result (map (λ name. name.now) (keys names.new)
        ≡ with_names (map (λ name. name.now) (keys names.old))
        (map (λ pair. pair.0) (filled fingerprints.now))) }
{
    for fingerprint in fingerprints {
        add_if_filled(names, fingerprint)?;
    }
    Ok(())
}

/// Adds the name of a fingerprint, if it is filled.
fn add_if_filled<'a>(
    names: &mut BTreeSet<&'a Text>,
    fingerprint: &'a (Text, Text),
) -> Result<(), AllocError>
    ensures { OnOk result (map (λ name. name.now) (keys names.new)
        ≡ with_names (map (λ name. name.now) (keys names.old))
        (map (λ pair. pair.0) (filled (fingerprint.now ∷ [])))) }
{
    if !is_filled(fingerprint) {
        return Ok(());
    }
    names.insert(&fingerprint.0)?;
    Ok(())
}

/// Puts the tiers of these names at the same place at the end, the greatest first.
fn push_fingerprints_here(
    alloc: Global,
    tiers: &mut Vec<Tier>,
    names: &BTreeSet<&Text>,
) -> Result<(), AllocError>
    ensures { OnOk result (tiers.new.items
        ≡ tiers.old.items
        ++ map FingerprintHere (reverse (map (λ name. name.now) (keys names.now)))) }
{
    let descending = falling(alloc, names)?;
    for name in &descending {
        tiers.push(Tier::FingerprintHere((*name).clone()?))?;
    }
    Ok(())
}

//! The number of earlier equal results for each result, which makes their fingerprints for GitLab different.
ghost use Rattle.std.specs.Prelude.{◌≡◌, ◌<◌, ◌+◌, ◌^◌, ℕ, List, [], ◌++◌, bytes_eq, map, IfOk, OnOk, if◌then◌else◌};
ghost use Rattle.sha2.specs.Sha256.{sha256};
ghost use Rattle.sarif_model.specs.Internal.Hashed.{first_bits};
ghost use Rattle.sarif_reports.specs.GitlabReport.{mark_of, quality_of};
ghost use Rattle.sarif_reports.specs.Internal.GitlabObjects.{object_of, objects_after};
ghost use Rattle.sarif_reports.specs.GitlabParts.{identity_of, identity_with};
ghost use Rattle.sarif_reports.specs.GitlabParts.{rank_text, number_of, counted};

use crate::identities::Identity;
use crate::ranked::Ranked;
use sarif_findings::Finding;
use sarif_model::Text;
use std::alloc::{AllocError, Global};
use std::collections::BTreeMap;

/// The first 64 bits of a digest. Nobody can choose identities so that many of them share these bits.
fn first_bits(digest: &[u8; 32]) -> u64
    ensures { result ≡ first_bits digest.now }
{
    u64::from_be_bytes([
        digest[0], digest[1], digest[2], digest[3], digest[4], digest[5], digest[6], digest[7],
    ])
}

/// What an identity is counted by.
#[tactic(auto, unfolding(crate::specs::GitlabParts::number_of))]
fn key_of(identity: &Identity) -> Result<(u64, Text), AllocError>
    requires { identity.now.first ≡ sha256 (identity.now.text ++ rank_text 0) }
    ensures number { IfOk result (λ key. key.0 ≡ number_of key.1) }
    ensures text { IfOk result (λ key. key.1 ≡ identity.now.text) }
{
    let text = identity.text.clone()?;
    Ok((first_bits(&identity.first), text))
}

/// Counts a result with this identity: how many with it were counted before. Most have none, and are looked up once.
fn count(counts: &mut BTreeMap<(u64, Text), u64>, identity: &Identity) -> Result<u64, AllocError>
    requires room { counted counts.old identity.now.text < 2 ^ 63 }
    requires first { identity.now.first ≡ sha256 (identity.now.text ++ rank_text 0) }
    ensures rank { IfOk result (λ rank. rank ≡ counted counts.old identity.now.text) }
    ensures counted { OnOk result ((other : List ℕ) → counted counts.new other
        ≡ counted counts.old other + (if bytes_eq other identity.now.text then 1 else 0)) }
{
    let Some(rank) = counts.insert(key_of(identity)?, 1)? else {
        return Ok(0);
    };
    counts.insert(key_of(identity)?, rank + 1)?;
    Ok(rank)
}

/// A result with this identity, as the next one: it is counted.
fn rank_next<'f>(
    counts: &mut BTreeMap<(u64, Text), u64>,
    finding: &'f Finding,
    identity: &'f Identity,
) -> Result<Ranked<'f>, AllocError>
    requires room { counted counts.old (identity_of finding.now) < 2 ^ 63 }
    requires identity { identity.now ≡ identity_with finding.now }
    ensures object { IfOk result (λ ranked. object_of ranked ≡ quality_of finding.now
        (mark_of finding.now (counted counts.old (identity_of finding.now)))) }
    ensures counted { OnOk result ((other : List ℕ) → counted counts.new other
        ≡ counted counts.old other + (if bytes_eq other (identity_of finding.now) then 1 else 0)) }
{
    let rank = count(counts, identity)?;
    Ok(Ranked {
        finding,
        identity,
        rank,
    })
}

/// These results, each with the number of equal ones before it. Results with the same identity are equal.
pub(crate) fn rank_all<'f>(
    alloc: Global,
    findings: &'f [Finding],
    identities: &'f [Identity],
) -> Result<Vec<Ranked<'f>>, AllocError>
    requires { identities.now ≡ map identity_with findings.now }
    ensures { IfOk result
        (λ ranked. map object_of ranked.items ≡ objects_after [] findings.now) }
{
    let mut counts = BTreeMap::new(alloc);
    let mut ranked = Vec::with_capacity(alloc, findings.len())?;
    for (number, finding) in findings.iter().enumerate() {
        ranked.push(rank_next(&mut counts, finding, &identities[number])?)?;
    }
    Ok(ranked)
}

//! Calls that the merge doesn't make. Only tests and callers outside this program use them: a matching with the
//! standard hasher, and the key of a single result.
ghost use Rattle.std.specs.Prelude.{◌≡◌, ◌≤◌, length, IfOk, IsOkAnd};
ghost use Rattle.std.specs.Option.{option_map};
ghost use Rattle.sarif_model.specs.Limits.{most_results};
ghost use Rattle.sarif_match.specs.Key.{key_of};
ghost use Rattle.sarif_match.specs.KeyParts.{parts_of};
ghost use Rattle.sarif_match.specs.Partners.{partners_in};
ghost use Rattle.sarif_evidence.specs.Seen.{seen};

use crate::keys::key_at;
use crate::matching::{Matching, match_all_in};
use crate::tier::Tier;
use crate::tier_key::Key;
use sarif_evidence::{MatchingVersion, seen};
use sarif_model::Record;
use std::alloc::{AllocError, Global};
use std::hash::{BuildHasherDefault, FoldHasher};

/// Matches each current result with at most one baseline result by a version, tier by tier. At each tier, unmatched
/// results with equal keys match in order: in version 2 the first with the first, the second with the second, and so
/// on; in version 3 the last with the last, and so on. Each list has at most `MOST_RESULTS` results. The tables use the
/// seed of the standard hasher, which the author of a log may know: see [`match_all_in`](crate::match_all_in). Returns
/// `AllocError` if memory runs out.
pub fn match_all(
    alloc: Global,
    current: &[Record],
    baseline: &[Record],
    version: MatchingVersion,
) -> Result<Matching, AllocError>
    requires current { length current.now ≤ most_results }
    requires baseline { length baseline.now ≤ most_results }
    ensures { IfOk result (λ matching. matching ≡ partners_in version current.now baseline.now) }
{
    let hasher = BuildHasherDefault::<FoldHasher>::new();
    match_all_in(alloc, hasher, current, baseline, version)
}

/// Returns a result as version 3 sees it: without fingerprints whose value is the empty string, without white space
/// in its snippet, and without its own suppressions. Returns `AllocError` if memory runs out.
pub fn see(alloc: Global, finding: &Record) -> Result<Record, AllocError>
    ensures { IfOk result (λ r. r ≡ seen finding.now) }
{
    seen(alloc, finding)
}

/// The key of a result at a tier, or `None` where it has none. In version 3 the result is one that [`see`] returned. The
/// key borrows, so `AllocError` never comes.
pub fn key<'a>(finding: &'a Record, tier: &Tier) -> Result<Option<Key<'a>>, AllocError>
    ensures { IsOkAnd result (λ k. option_map parts_of k ≡ key_of finding.now tier.now) }
{
    Ok(key_at(finding, tier))
}

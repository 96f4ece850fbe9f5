//! All tiers: which baseline result each current result is paired with.
ghost use Rattle.std.specs.Prelude.{◌≡◌, ◌≤◌, List, Option, ℕ, None, false, length, reverse, slice_index_or};
ghost use Rattle.std.specs.Prelude.{IfOk, OnOk};
ghost use Rattle.sarif_match.specs.Partners.{is_taken, after_tier, partners_after, partners_of, from_end};
ghost use Rattle.sarif_match.specs.Partners.{partners_in, turned};
ghost use Rattle.sarif_evidence.specs.declared.version.MatchingVersion.TheVariants.{Three};
ghost use Rattle.sarif_match.specs.Internal.Turned.{AreBelow};
ghost use Rattle.std.specs.Option.{option_map};
ghost use Rattle.sarif_match.specs.Internal.Progress.{IsSound};
ghost use Rattle.sarif_match.specs.Internal.Side.{IsIndexed};
ghost use Rattle.sarif_model.specs.Limits.{most_results};

use crate::finer_tiers::finer_tiers;
use crate::pairing::pair_up;
use crate::progress::Progress;
use crate::shortening::short_from_end;
use crate::side::IndexedSide;
use crate::tier::Tier;
use crate::tier_list::tiers_of;
use sarif_evidence::MatchingVersion;
use sarif_model::Record;
use std::alloc::{AllocError, Global};
use std::hash::BuildHasher;
use std::marker::Model;

/// The baseline result that each current result matches. Contracts see the list of matches: for each current
/// result the number of its match in the baseline, or none.
#[derive(Drop)]
pub struct Matching {
    partners: Vec<Option<u32>>,
    taken: Vec<bool>,
}

impl Model for Matching {
    ghost Value = { List (Option ℕ) };

    ghost view = { λ m. m.partners.items };

    ghost invariant = { λ m. (j : ℕ) →
        slice_index_or m.taken.items j false ≡ is_taken m.partners.items j };
}

impl Matching {
    /// The matches and marks of a finished matching.
    fn of(progress: Progress) -> Matching
        requires { IsSound (length progress.partners.items)
            (length progress.taken.items) progress }
        ensures { result ≡ progress.partners.items }
    {
        let Progress {
            partners,
            taken,
            ..
        } = progress;
        Matching { partners, taken }
    }

    /// The matching of two lists, given that of the lists in reverse order.
    fn turned(alloc: Global, progress: &Progress) -> Result<Matching, AllocError>
        requires sound { IsSound (length progress.now.partners.items)
            (length progress.now.taken.items) progress.now }
        requires below { AreBelow (length progress.now.taken.items) progress.now.partners.items }
        requires few { length progress.now.taken.items ≤ most_results }
        ensures { IfOk result
            (λ m. m ≡ turned (length progress.now.taken.items) progress.now.partners.items) }
    {
        let count = progress.taken.len();
        let partners = turned(alloc, count as u32, &progress.partners)?;
        let taken = reversed(alloc, &progress.taken)?;
        Ok(Matching { partners, taken })
    }

    /// Returns the match of current result `i`, if it has one; `None` past the last result.
    pub fn partner(&self, i: u32) -> Option<u32>
        ensures { result ≡ slice_index_or self.now i None }
    {
        self.partners.get(i as usize).copied().flatten()
    }

    /// Returns whether baseline result `j` is the match of a current result; `false` past the last result.
    pub fn taken(&self, j: u32) -> bool
        ensures { result ≡ is_taken self.now j }
    {
        self.taken.get(j as usize).copied().unwrap_or(false)
    }
}

/// Matches each current result with at most one baseline result, as [`match_all`](crate::match_all) does, with
/// tables that hash with `hasher`, for example a `RandomState` whose seed no log can know. The result does not
/// depend on the hasher. Each list has at most `MOST_RESULTS` results. Without a baseline no table is made. Returns
/// `AllocError` if memory runs out.
pub fn match_all_with<'a, S: BuildHasher + Copy>(
    alloc: Global,
    hasher: S,
    current: &'a [Record],
    baseline: &'a [Record],
) -> Result<Matching, AllocError>
    requires current { length current.now ≤ most_results }
    requires baseline { length baseline.now ≤ most_results }
    ensures { IfOk result (λ matching. matching ≡ partners_of current.now baseline.now) }
{
    if baseline.is_empty() {
        let progress = Progress::new(alloc, current.len(), baseline.len())?;
        return Ok(Matching::of(progress));
    }
    let tiers = tiers_of(alloc, current, baseline)?;
    let progress = match_tiers(alloc, hasher, current, baseline, &tiers)?;
    Ok(Matching::of(progress))
}

/// Matches each current result with at most one baseline result in a version, as [`match_all`](crate::match_all)
/// does, with tables that hash with `hasher`. Each list has at most `MOST_RESULTS` results. Returns `AllocError` if
/// memory runs out.
pub fn match_all_in<S: BuildHasher + Copy>(
    alloc: Global,
    hasher: S,
    current: &[Record],
    baseline: &[Record],
    version: MatchingVersion,
) -> Result<Matching, AllocError>
    requires current { length current.now ≤ most_results }
    requires baseline { length baseline.now ≤ most_results }
    ensures { IfOk result (λ matching. matching ≡ partners_in version current.now baseline.now) }
{
    match version {
        MatchingVersion::Two => match_all_with(alloc, hasher, current, baseline),
        MatchingVersion::Three => match_from_end(alloc, hasher, current, baseline),
    }
}

/// Matches by version 3: both lists as it sees them, in reverse order and as short records, and each number turned
/// back. Without a baseline no result is read.
fn match_from_end<S: BuildHasher + Copy>(
    alloc: Global,
    hasher: S,
    current: &[Record],
    baseline: &[Record],
) -> Result<Matching, AllocError>
    requires current { length current.now ≤ most_results }
    requires baseline { length baseline.now ≤ most_results }
    ensures { IfOk result (λ matching. matching ≡ partners_in Three current.now baseline.now) }
{
    if baseline.is_empty() {
        let progress = Progress::new(alloc, current.len(), baseline.len())?;
        return Ok(Matching::of(progress));
    }
    let tiers = finer_tiers(alloc, current, baseline)?;
    let short = short_from_end(alloc, hasher, current, baseline)?;
    let progress = match_tiers(alloc, hasher, &short.current, &short.baseline, &tiers)?;
    Matching::turned(alloc, &progress)
}

/// Goes through these tiers in order.
fn match_tiers<'a, S: BuildHasher + Copy>(
    alloc: Global,
    hasher: S,
    current: &'a [Record],
    baseline: &'a [Record],
    tiers: &[Tier],
) -> Result<Progress, AllocError>
    requires current { length current.now ≤ most_results }
    requires baseline { length baseline.now ≤ most_results }
    ensures sound { IfOk result (IsSound (length current.now) (length baseline.now)) }
    ensures partners { IfOk result (λ progress. progress.partners.items
        ≡ partners_after current.now baseline.now tiers.now) }
{
    let mut progress = Progress::new(alloc, current.len(), baseline.len())?;
    let current_side = IndexedSide::new(alloc, hasher, current)?;
    let baseline_side = IndexedSide::new(alloc, hasher, baseline)?;
    for tier in tiers {
        match_tier(
            alloc,
            hasher,
            &mut progress,
            tier,
            &current_side,
            &baseline_side,
        )?;
    }
    Ok(progress)
}

/// The matches, each counted from the other end of its list; the baseline has `count` results.
fn turned(
    alloc: Global,
    count: u32,
    partners: &[Option<u32>],
) -> Result<Vec<Option<u32>>, AllocError>
    ensures { IfOk result (λ ps. ps.items ≡ turned count partners.now) }
{
    let mut turned_partners = Vec::with_capacity(alloc, partners.len())?;
    for partner in partners {
        turned_partners.push(from_end(count, *partner))?;
    }
    turned_partners.reverse();
    Ok(turned_partners)
}

/// The marks in reverse order.
fn reversed(alloc: Global, marks: &[bool]) -> Result<Vec<bool>, AllocError>
    ensures { IfOk result (λ reversed. reversed.items ≡ reverse marks.now) }
{
    let mut reversed_marks = marks.to_vec(alloc)?;
    reversed_marks.reverse();
    Ok(reversed_marks)
}

/// A number counted from the other end of a list of `count` results, if there is one.
fn from_end(count: u32, number: Option<u32>) -> Option<u32>
    ensures { result ≡ option_map (from_end count) number }
{
    let number = number?;
    Some(count.saturating_sub(1).saturating_sub(number))
}

/// Pairs what is left over at one tier.
fn match_tier<'a, S: BuildHasher + Copy>(
    alloc: Global,
    hasher: S,
    progress: &mut Progress,
    tier: &Tier,
    current: &IndexedSide<'a, S>,
    baseline: &IndexedSide<'a, S>,
) -> Result<(), AllocError>
    requires current { IsIndexed current.now }
    requires baseline { IsIndexed baseline.now }
    requires sound { IsSound (length current.now.findings.now)
        (length baseline.now.findings.now) progress.old }
    ensures sound { OnOk result (IsSound (length current.now.findings.now)
        (length baseline.now.findings.now) progress.new) }
    ensures paired { OnOk result (progress.new.partners.items
        ≡ after_tier current.now.findings.now baseline.now.findings.now
        progress.old.partners.items tier.now) }
{
    let left = current.left_over(alloc, tier, &progress.paired)?;
    let free = baseline.left_over(alloc, tier, &progress.taken)?;
    let pairs = pair_up(alloc, hasher, &left, &free)?;
    progress.put_pairs(&pairs);
    Ok(())
}

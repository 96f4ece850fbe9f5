//! Matching compared with a matching that follows the rule word by word, on lists from a seeded generator and on
//! long lists.
use super::matched;
use super::words::{add, plain, result_of};
use sarif_evidence::{MatchingVersion, state};
use sarif_match::{Matching, Tier, key, match_all_with, tiers};
use sarif_model::{Record, State};
use std::alloc::{AllocError, Global};
use std::hash::RandomState;
use std::io;
use std::process::Abort;
use std::random::RandomSource;
use std::test::Fail;

/// A generator of small numbers.
#[derive(Drop)]
struct Draw {
    seed: u64,
}

/// What is drawn for a result: a number below this one, and the part with the number that was drawn, if there is one.
const PARTS: [(u64, &str); 8] = [
    (4, "$other"),
    (3, "%R2"),
    (4, "!n"),
    (3, "- a.c b.c"),
    (6, "#1 #2"),
    (6, "f/v1:x f/v1:y f/v2:x"),
    (6, "f/v2:x f/v1:x"),
    (4, "p/v1=a p/v2=a"),
];

impl Draw {
    /// A number below `n`, or 0.
    fn below(&mut self, n: u64) -> u64 {
        self.seed = self
            .seed
            .wrapping_mul(6364136223846793005)
            .wrapping_add(1442695040888963407);
        if n == 0 { 0 } else { (self.seed >> 33) % n }
    }

    fn result(&mut self, alloc: Global) -> Result<Record, AllocError> {
        let mut made = plain(alloc)?;
        for (count, parts) in &PARTS {
            let number = self.below(*count);
            if let Some(part) = parts.split(' ').nth(number as usize) {
                add(alloc, &mut made, part)?;
            }
        }
        Ok(made)
    }

    fn list(&mut self, alloc: Global) -> Result<Vec<Record>, AllocError> {
        let mut made = Vec::new(alloc);
        for _ in 0..self.below(5) {
            made.push(self.result(alloc)?)?;
        }
        Ok(made)
    }
}

/// Whether two results have the same key at a tier.
fn are_alike(one: &Record, other: &Record, tier: &Tier) -> Result<bool, AllocError> {
    let wanted = key(one, tier)?;
    Ok(wanted.is_some() && key(other, tier)? == wanted)
}

/// The first baseline result that is left over and has the same key as a finding.
fn first_left(
    finding: &Record,
    baseline: &[Record],
    partners: &[Option<u32>],
    tier: &Tier,
) -> Result<Option<u32>, AllocError> {
    let mut number = 0u32;
    for one in baseline {
        if !partners.contains(&Some(number)) && are_alike(finding, one, tier)? {
            return Ok(Some(number));
        }
        number = number.saturating_add(1);
    }
    Ok(None)
}

/// Pairs what is left over at a tier: each current result, in order, with the first baseline result that is left.
fn pair_at(
    current: &[Record],
    baseline: &[Record],
    partners: &mut [Option<u32>],
    tier: &Tier,
) -> Result<(), AllocError> {
    let mut i = 0;
    for finding in current {
        if i < partners.len() && partners[i].is_none() {
            partners[i] = first_left(finding, baseline, partners, tier)?;
        }
        i = i.saturating_add(1);
    }
    Ok(())
}

/// The matches by the rule, read word by word.
fn plain_partners(
    alloc: Global,
    current: &[Record],
    baseline: &[Record],
) -> Result<Vec<Option<u32>>, AllocError> {
    let mut partners = vec![in alloc; None; current.len()]?;
    for tier in &tiers(alloc, current, baseline, MatchingVersion::Two)? {
        pair_at(current, baseline, &mut partners, tier)?;
    }
    Ok(partners)
}

/// Asserts that each result has the expected match, and returns how many have one.
fn expect_partners(rt: &impl Abort, matching: &Matching, wanted: &[Option<u32>]) -> u64 {
    let mut paired = 0u64;
    let mut number = 0u32;
    for partner in wanted {
        assert!(rt; matching.partner(number) == *partner);
        paired = paired.wrapping_add(u64::from(partner.is_some()));
        number = number.saturating_add(1);
    }
    paired
}

/// Draws two lists, asserts that they are matched by the rule, and returns how many are.
fn expect_drawn(rt: &(impl Abort + AllocGlobal), draw: &mut Draw) -> Result<u64, AllocError> {
    let current = draw.list(rt.alloc())?;
    let baseline = draw.list(rt.alloc())?;
    let wanted = plain_partners(rt.alloc(), &current, &baseline)?;
    let matching = matched(rt, &current, &baseline, MatchingVersion::Two)?;
    Ok(expect_partners(rt, &matching, &wanted))
}

#[test]
fn drawn_lists_are_matched_as_the_rule_says(rt: HostRuntime) -> Result<(), Fail> {
    let mut draw = Draw { seed: 20240917 };
    let mut paired = 0u64;
    for _ in 0..20_000 {
        paired = paired.wrapping_add(expect_drawn(&rt, &mut draw)?);
    }
    assert!(rt; paired > 5_000, "too few pairs: {paired}");
    Ok(())
}

/// How many results the long lists have.
const MANY: u32 = 20_000;

/// Results that are all equal.
fn equal_results(alloc: Global) -> Result<Vec<Record>, AllocError> {
    let mut made = Vec::new(alloc);
    for _ in 0..MANY {
        made.push(plain(alloc)?)?;
    }
    Ok(made)
}

/// Returns how many results match the one with their own number and are unchanged.
fn count_in_order(current: &[Record], baseline: &[Record], matching: &Matching) -> u32 {
    let mut count = 0u32;
    let mut number = 0u32;
    for finding in current {
        let is_unchanged = state(finding, baseline.get(number as usize)) == State::Unchanged;
        if is_unchanged && matching.partner(number) == Some(number) {
            count = count.saturating_add(1);
        }
        number = number.saturating_add(1);
    }
    count
}

#[test]
fn long_lists_of_equal_results_are_paired_in_order(rt: HostRuntime) -> Result<(), Fail> {
    let current = equal_results(rt.alloc())?;
    let baseline = equal_results(rt.alloc())?;
    let matching = matched(&rt, &current, &baseline, MatchingVersion::Two)?;
    assert_eq!(rt; count_in_order(&current, &baseline, &matching), MANY);
    Ok(())
}

/// A result with a fingerprint of that name.
fn named(alloc: Global, number: u32) -> Result<Record, AllocError> {
    let parts = format!(in alloc; "{number}:x")?;
    result_of(alloc, parts.as_str())
}

/// Results each with a fingerprint of another name.
fn named_results(alloc: Global, is_backwards: bool) -> Result<Vec<Record>, AllocError> {
    let mut made = Vec::new(alloc);
    for number in 0..MANY {
        let last = MANY - 1 - number;
        made.push(named(alloc, if is_backwards { last } else { number })?)?;
    }
    Ok(made)
}

/// Returns how many results match the one with the same number from the end.
fn count_backwards(matching: &Matching) -> u32 {
    let mut count = 0u32;
    for number in 0..MANY {
        if matching.partner(number) == Some(MANY - 1 - number) {
            count = count.saturating_add(1);
        }
    }
    count
}

#[test]
fn many_fingerprint_names_are_all_paired(rt: HostRuntime) -> Result<(), Fail> {
    let current = named_results(rt.alloc(), false)?;
    let baseline = named_results(rt.alloc(), true)?;
    let matching = matched(&rt, &current, &baseline, MatchingVersion::Two)?;
    assert_eq!(rt; count_backwards(&matching), MANY);
    Ok(())
}

/// Random bytes that are all the same.
#[derive(Drop)]
struct EqualBytes(u8);

impl RandomSource for EqualBytes {
    fn fill_bytes(&self, buf: &mut [u8]) -> io::Result<()> {
        buf.fill(self.0);
        Ok(())
    }
}

/// Asserts the matches of two lists with the seed of these bytes.
fn expect_seeded(
    rt: &(impl Abort + AllocGlobal),
    byte: u8,
    current: &[Record],
    baseline: &[Record],
    wanted: &[Option<u32>],
) -> Result<(), Fail> {
    let seed = RandomState::new(&EqualBytes(byte))?;
    assert!(rt; current.len() <= 1_000_000);
    assert!(rt; baseline.len() <= 1_000_000);
    let matching = match_all_with(rt.alloc(), seed, current, baseline)?;
    expect_partners(rt, &matching, wanted);
    Ok(())
}

/// Draws two lists, and asserts their matches with four seeds.
fn expect_any_seed(rt: &(impl Abort + AllocGlobal), draw: &mut Draw) -> Result<(), Fail> {
    let current = draw.list(rt.alloc())?;
    let baseline = draw.list(rt.alloc())?;
    let wanted = plain_partners(rt.alloc(), &current, &baseline)?;
    for byte in [0, 1, 129, 255] {
        expect_seeded(rt, byte, &current, &baseline, &wanted)?;
    }
    Ok(())
}

#[test]
fn any_seed_gives_the_same_partners(rt: HostRuntime) -> Result<(), Fail> {
    let mut draw = Draw { seed: 20261123 };
    for _ in 0..500 {
        expect_any_seed(&rt, &mut draw)?;
    }
    Ok(())
}

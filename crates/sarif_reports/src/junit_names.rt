//! The names of test cases: no two of a suite are equal.
ghost use Rattle.std.specs.Prelude.{◌≡◌, ◌+◌, ◌<◌, ◌^◌, ◌++◌, ℕ, List, bytes_eq, string_bytes, IfOk, OnOk};
ghost use Rattle.std.specs.Prelude.{unwrap_or, if◌then◌else◌};
ghost use Rattle.std.specs.HashMap.{get_by_text};
ghost use Rattle.sarif_reports.specs.JunitReport as said;
ghost use Rattle.sarif_reports.specs.Internal.Suites.{counted};

use indexmap::IndexMap;
use sarif_findings::Finding;
use sarif_shown::push_place;
use std::alloc::{AllocError, Global};
use std::hash::RandomState;

/// The place and the rule of a result.
pub(crate) fn plain_name(alloc: Global, finding: &Finding) -> Result<String, AllocError>
    ensures { IfOk result (λ s. string_bytes s ≡ said.plain_name finding.now) }
{
    let mut name = String::new(alloc);
    push_place(&mut name, finding)?;
    if !finding.rule.as_str().is_empty() {
        name.push_str(": ")?;
        name.push_str(finding.rule.as_str())?;
    }
    Ok(name)
}

/// Makes a plain name the name of the n-th result with it.
#[tactic(auto, unfolding(crate::specs::JunitReport::nth_name))]
pub(crate) fn number_name(alloc: Global, name: &mut String, n: u64) -> Result<(), AllocError>
    ensures { OnOk result (string_bytes name.new ≡ said.nth_name (string_bytes name.old) n) }
{
    if n > 1 || name.as_bytes().ends_with(b")") {
        let number = format!(in alloc; " ({n})")?;
        name.push_str(number.as_str())?;
    }
    Ok(())
}

/// Counts a result with this plain name: how many have it now.
pub(crate) fn count(
    alloc: Global,
    counts: &mut IndexMap<String, u64, RandomState>,
    plain: &str,
) -> Result<u64, AllocError>
    requires room { counted counts.old plain.now < 2 ^ 63 }
    ensures number { IfOk result (λ n. n ≡ counted counts.old plain.now + 1) }
    ensures counted { OnOk result ((other : List ℕ) → counted counts.new other
        ≡ counted counts.old other + (if bytes_eq other plain.now then 1 else 0)) }
{
    if let Some(number) = counts.get_mut(plain) {
        *number += 1;
        return Ok(*number);
    }
    counts.insert(String::from_str(alloc, plain)?, 1)?;
    Ok(1)
}

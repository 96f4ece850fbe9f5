//! How results are matched. Each row of a test is a string, and what is found is written in the same form.
mod evidence;
mod rows;
mod seeded;
mod tiers;
mod words;

use sarif_evidence::MatchingVersion;
use sarif_match::{Matching, match_all};
use sarif_model::Record;
use std::alloc::AllocError;
use std::process::Abort;

fn matched(
    rt: &(impl Abort + AllocGlobal),
    current: &[Record],
    baseline: &[Record],
    version: MatchingVersion,
) -> Result<Matching, AllocError> {
    assert!(rt; current.len() <= 1_000_000);
    assert!(rt; baseline.len() <= 1_000_000);
    match_all(rt.alloc(), current, baseline, version)
}

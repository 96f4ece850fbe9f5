//! The results of a log's first run and those of its second, which represent a baseline.
use crate::reading::log_of;
use sarif_evidence::MatchingVersion;
use sarif_match::{key, match_all, tiers};
use sarif_model::{Fault, Record, Refusal};
use sarif_read::RawRun;
use sarif_runs::{IgnoredNames, RecordOptions, make_record, open_run};
use std::alloc::{AllocError, Global};
use std::hash::RandomState;

#[derive(Drop)]
struct MatchedSides {
    current: Vec<Record>,
    baseline: Vec<Record>,
}

fn sides_of(alloc: Global, seed: RandomState, log: &str) -> Result<MatchedSides, Refusal<Fault>> {
    let log = log_of(alloc, log)?;
    match log.runs() {
        [current, baseline] => Ok(MatchedSides {
            current: records_of(alloc, seed, current)?,
            baseline: records_of(alloc, seed, baseline)?,
        }),
        _ => Err(Refusal::Fault(Fault::NotLog)),
    }
}

fn records_of(
    alloc: Global,
    seed: RandomState,
    run: &RawRun,
) -> Result<Vec<Record>, Refusal<Fault>> {
    let head = open_run(alloc, seed, run)?;
    let options = RecordOptions {
        regions: false,
        ignored: IgnoredNames::new(&[]),
    };
    let mut records = Vec::new(alloc);
    for seq in 0..run.len() {
        records.push(make_record(alloc, &head, run, seq, &options)?)?;
    }
    Ok(records)
}

/// The tiers of both sides.
pub fn tiers_in_words(alloc: Global, seed: RandomState, log: &str) -> Result<String, AllocError> {
    match sides_of(alloc, seed, log) {
        Ok(sides) => {
            let tiers = tiers(alloc, &sides.current, &sides.baseline, MatchingVersion::Two)?;
            format!(in alloc; "{tiers:?}")
        }
        Err(fault) => format!(in alloc; "{fault}"),
    }
}

/// At each tier the key of each current result.
pub fn keys_in_words(alloc: Global, seed: RandomState, log: &str) -> Result<String, AllocError> {
    match sides_of(alloc, seed, log) {
        Ok(sides) => keys_of(alloc, &sides),
        Err(fault) => format!(in alloc; "{fault}"),
    }
}

fn keys_of(alloc: Global, sides: &MatchedSides) -> Result<String, AllocError> {
    let mut text = String::new(alloc);
    for tier in &tiers(alloc, &sides.current, &sides.baseline, MatchingVersion::Two)? {
        for record in &sides.current {
            let key = key(record, tier)?;
            text.push_str(format!(in alloc; "{key:?};")?.as_str())?;
        }
    }
    Ok(text)
}

/// The match of each current result.
pub fn partners_in_words(
    alloc: Global,
    seed: RandomState,
    log: &str,
) -> Result<String, AllocError> {
    match sides_of(alloc, seed, log) {
        Ok(sides) => partners_of(alloc, &sides),
        Err(fault) => format!(in alloc; "{fault}"),
    }
}

fn partners_of(alloc: Global, sides: &MatchedSides) -> Result<String, AllocError> {
    if sides.current.len() > 1000 || sides.baseline.len() > 1000 {
        return String::from_str(alloc, "too many results");
    }
    let matching = match_all(alloc, &sides.current, &sides.baseline, MatchingVersion::Two)?;
    let mut text = String::new(alloc);
    for number in 0..sides.current.len() {
        let partner = matching.partner(number as u32);
        text.push_str(format!(in alloc; "{partner:?};")?.as_str())?;
    }
    Ok(text)
}

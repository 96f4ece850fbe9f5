//! Logs, runs and results.
use sarif_members::Parts;
use sarif_model::{Fault, Level, Place, Record, Refusal};
use sarif_read::{Log, ReadFault, read_log, strip};
use sarif_runs::{Descriptor, IgnoredNames, RecordOptions, make_record, open_run, read_parts};
use serde_json::Value;
use std::alloc::{AllocError, Global};
use std::hash::RandomState;

/// The runs of a log as JSON, or its error.
pub fn runs_in_words(alloc: Global, log: &str) -> Result<String, AllocError> {
    match read_log(alloc, log.as_bytes(), false) {
        Ok(log) => runs_as_text(alloc, &log),
        Err(Refusal::Fault(found)) => fault_in_words(alloc, found),
        Err(Refusal::OutOfMemory) => String::from_str(alloc, "OutOfMemory"),
    }
}

fn fault_in_words(alloc: Global, found: ReadFault) -> Result<String, AllocError> {
    let fault = found.fault;
    match found.run {
        Some(run) => format!(in alloc; "run {run}: {fault}"),
        None => format!(in alloc; "{fault}"),
    }
}

fn runs_as_text(alloc: Global, log: &Log) -> Result<String, AllocError> {
    let mut text = String::new(alloc);
    for run in log.runs() {
        text.push_str(run.value().to_string(alloc)?.as_str())?;
    }
    Ok(text)
}

/// The stripped copy of a value.
pub fn stripped(alloc: Global, text: &str) -> Result<String, AllocError> {
    match Value::from_slice(alloc, text.as_bytes()) {
        Ok(value) => strip(&value)?.to_string(alloc),
        Err(error) if error.is_memory() => Err(AllocError),
        Err(_) => String::from_str(alloc, "NotJson"),
    }
}

/// The log of that text.
pub fn log_of(alloc: Global, text: &str) -> Result<Log, Refusal<Fault>> {
    match read_log(alloc, text.as_bytes(), false) {
        Ok(log) => Ok(log),
        Err(Refusal::Fault(found)) => Err(Refusal::Fault(found.fault)),
        Err(Refusal::OutOfMemory) => Err(Refusal::OutOfMemory),
    }
}

/// The own members of a log's first result.
pub fn parts_in_words(alloc: Global, log: &str) -> Result<String, AllocError> {
    match parts_of(alloc, log) {
        Ok(parts) => format!(in alloc; "{parts:?}"),
        Err(fault) => format!(in alloc; "{fault}"),
    }
}

fn parts_of(alloc: Global, log: &str) -> Result<Parts, Refusal<Fault>> {
    let log = log_of(alloc, log)?;
    match log.runs().first() {
        Some(run) if run.len() > 0 => read_parts(alloc, run, 0, true),
        _ => Err(Refusal::Fault(Fault::NotLog)),
    }
}

/// The descriptor, the level and the place that a log's first run gives its first result.
pub fn head_in_words(alloc: Global, seed: RandomState, log: &str) -> Result<String, AllocError> {
    match given_by_head(alloc, seed, log) {
        Ok(given) => format!(in alloc; "{given:?}"),
        Err(fault) => format!(in alloc; "{fault}"),
    }
}

#[derive(Debug, Drop)]
struct GivenRun {
    descriptor: Option<Descriptor>,
    level: Level,
    place: Place,
}

fn given_by_head(alloc: Global, seed: RandomState, log: &str) -> Result<GivenRun, Refusal<Fault>> {
    let log = log_of(alloc, log)?;
    let Some(run) = log.runs().first() else {
        return Err(Refusal::Fault(Fault::NotLog));
    };
    let head = open_run(alloc, seed, run)?;
    if run.len() == 0 {
        return Err(Refusal::Fault(Fault::NotLog));
    }
    let parts = read_parts(alloc, run, 0, false)?;
    Ok(GivenRun {
        descriptor: head.descriptor(&parts)?,
        level: head.level(&parts)?,
        place: head.place(&parts)?,
    })
}

/// The record of a log's first result.
pub fn record_in_words(alloc: Global, seed: RandomState, log: &str) -> Result<String, AllocError> {
    match first_record(alloc, seed, log) {
        Ok(record) => format!(in alloc; "{record:?}"),
        Err(fault) => format!(in alloc; "{fault}"),
    }
}

/// The record of a log's first result.
pub fn first_record(alloc: Global, seed: RandomState, log: &str) -> Result<Record, Refusal<Fault>> {
    let log = log_of(alloc, log)?;
    let Some(run) = log.runs().first() else {
        return Err(Refusal::Fault(Fault::NotLog));
    };
    let head = open_run(alloc, seed, run)?;
    if run.len() == 0 {
        return Err(Refusal::Fault(Fault::NotLog));
    }
    let options = RecordOptions {
        regions: true,
        ignored: IgnoredNames::new(&[]),
    };
    make_record(alloc, &head, run, 0, &options)
}

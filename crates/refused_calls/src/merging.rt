//! Whole merges by four workers, of bytes and from readers into a writer.
ghost use Rattle.sarif_streams.specs.Room.{HaveRoom};

use sarif_gather::NoGate;
use sarif_merge::{merge_bytes, merge_to};
use sarif_options::{Checks, Options, Policy};
use sarif_streams::{Counted, Readers, SourceBytes};
use std::alloc::{AllocError, Global};
use std::hash::RandomState;
use std::sync::Wait;
use std::thread::Threads;

/// More bytes than any merged log here has.
const ROOM: usize = 4_000;

/// A log, and a baseline and a suppression file if they are there. In the input there are bars between the three.
#[derive(Clone, Copy)]
struct MergeInput<'a> {
    log: &'a str,
    baseline: &'a str,
    suppressions: &'a str,
}

impl<'a> MergeInput<'a> {
    fn of(text: &'a str) -> MergeInput<'a> {
        let (log, rest) = text.split_once(" | ").unwrap_or((text, ""));
        let (baseline, suppressions) = rest.split_once(" | ").unwrap_or((rest, ""));
        MergeInput {
            log,
            baseline,
            suppressions,
        }
    }
}

fn options_by(alloc: Global, seed: RandomState) -> Options {
    Options {
        policy: Policy::default(),
        checks: Checks::new(alloc),
        today: None,
        workers: 4,
        seed,
    }
}

/// Returns the merged log by `merge_bytes`, or its error.
pub fn merged_bytes<R: Threads + Wait + Sync>(
    rt: &R,
    alloc: Global,
    seed: RandomState,
    text: &str,
) -> Result<String, AllocError> {
    let sources = sources_of(alloc, &MergeInput::of(text))?;
    match merge_bytes(rt, alloc, &sources, &options_by(alloc, seed), &NoGate) {
        Ok(merged) => String::from_str(alloc, merged.log.as_str()),
        Err(fault) => format!(in alloc; "{fault}"),
    }
}

fn sources_of(alloc: Global, given: &MergeInput) -> Result<SourceBytes, AllocError> {
    let mut sources = SourceBytes {
        logs: Vec::new(alloc),
        baselines: Vec::new(alloc),
        suppressions: None,
        policy: None,
        diff: None,
    };
    sources.logs.push(given.log.as_bytes().to_vec(alloc)?)?;
    if !given.baseline.is_empty() {
        sources
            .baselines
            .push(given.baseline.as_bytes().to_vec(alloc)?)?;
    }
    if !given.suppressions.is_empty() {
        sources.suppressions = Some(given.suppressions.as_bytes().to_vec(alloc)?);
    }
    Ok(sources)
}

/// Returns what `merge_to` wrote of a log with a baseline, or with a suppression file if there is no baseline; or its
/// error.
pub fn merged_to<R: Threads + Wait + Sync>(
    rt: &R,
    alloc: Global,
    seed: RandomState,
    text: &str,
) -> Result<String, AllocError> {
    let given = MergeInput::of(text);
    let log = given.log.as_bytes();
    if given.baseline.is_empty() {
        let mut readers = Readers {
            logs: vec![in alloc; Counted::new(log)]?,
            baselines: Vec::new(alloc),
            suppressions: Some(Counted::new(given.suppressions.as_bytes())),
            policy: None,
            diff: None,
        };
        write_merged(rt, alloc, seed, &mut readers)
    } else {
        let mut readers = Readers {
            logs: vec![in alloc; Counted::new(log)]?,
            baselines: vec![in alloc; Counted::new(given.baseline.as_bytes())]?,
            suppressions: None,
            policy: None,
            diff: None,
        };
        write_merged(rt, alloc, seed, &mut readers)
    }
}

/// What `merge_to` wrote of what these readers return, or its error.
fn write_merged<R: Threads + Wait + Sync>(
    rt: &R,
    alloc: Global,
    seed: RandomState,
    readers: &mut Readers<&[u8]>,
) -> Result<String, AllocError>
    requires { HaveRoom readers.old }
{
    // The writer has its memory before, since without it a write fails.
    let mut taken = Vec::with_capacity(alloc, ROOM)?;
    let mut out = Counted::new(&mut taken);
    match merge_to(
        rt,
        alloc,
        readers,
        &mut out,
        &options_by(alloc, seed),
        &NoGate,
    ) {
        Ok(_) => String::from_utf8_lossy(alloc, taken.as_slice()),
        Err(fault) => format!(in alloc; "{fault}"),
    }
}

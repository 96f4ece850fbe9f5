//! The inputs of a merge.
ghost use Rattle.std.specs.Prelude.{◌≡◌, IfOk};

use crate::runs::log_of;
use sarif_model::{Sequence, Text};
use sarif_options::{Checks, Policy};
use sarif_streams::SourceBytes;
use std::alloc::{AllocError, Global};
use std::hash::RandomState;
use std::io;
use std::random::RandomSource;
use std::test::Fail;

/// The inputs of a merge.
#[derive(Drop)]
pub struct Given {
    /// The logs, the baselines, the suppression file, the policy and the diff.
    pub sources: SourceBytes,
    /// What the gate fails on.
    pub policy: Policy,
    /// What is required of runs.
    pub checks: Checks,
    /// Today's date as YYYYMMDD.
    pub today: Option<u32>,
    /// The number of workers, 1 to 64.
    pub workers: u32,
    /// The random bytes of the system.
    pub bytes: Bytes,
}

impl Given {
    /// Returns no logs, one worker, the default policy and checks, and a system whose random bytes are 0.
    pub fn new(alloc: Global) -> Given {
        Given {
            sources: SourceBytes {
                logs: Vec::new(alloc),
                baselines: Vec::new(alloc),
                suppressions: None,
                policy: None,
                diff: None,
            },
            policy: Policy::default(),
            checks: Checks::new(alloc),
            today: None,
            workers: 1,
            bytes: ZEROS,
        }
    }

    /// Adds a log, which is this string.
    pub fn log(&mut self, alloc: Global, text: &str) -> Result<(), AllocError> {
        let bytes = text.as_bytes().to_vec(alloc)?;
        self.sources.logs.push(bytes)?;
        Ok(())
    }

    /// Adds a baseline, which is this string.
    pub fn baseline(&mut self, alloc: Global, text: &str) -> Result<(), AllocError> {
        let bytes = text.as_bytes().to_vec(alloc)?;
        self.sources.baselines.push(bytes)?;
        Ok(())
    }

    /// Sets the suppression file: it has this version and these entries, which are JSON objects with commas between
    /// them.
    pub fn entries(&mut self, alloc: Global, version: u8, list: &str) -> Result<(), AllocError> {
        let text = format!(in alloc; "{{\"version\":{version},\"suppressions\":[{list}]}}")?;
        self.sources.suppressions = Some(text.as_bytes().to_vec(alloc)?);
        Ok(())
    }

    /// Sets the diff, which is this string.
    pub fn diff(&mut self, alloc: Global, text: &str) -> Result<(), AllocError> {
        self.sources.diff = Some(text.as_bytes().to_vec(alloc)?);
        Ok(())
    }
}

/// Returns a copy of these checks. Returns `AllocError` if memory runs out.
pub(crate) fn copy_of(alloc: Global, checks: &Checks) -> Result<Checks, AllocError>
    ensures { IfOk result (λ copy. copy ≡ checks.now) }
{
    let ignored = copy_names(alloc, checks.ignored.as_slice())?;
    let roots = copy_names(alloc, checks.roots.as_slice())?;
    Ok(Checks {
        require_success: checks.require_success,
        allow_external: checks.allow_external,
        matching: checks.matching,
        once: checks.once,
        ignored,
        scope: checks.scope,
        roots,
    })
}

fn copy_names(alloc: Global, names: &[Text]) -> Result<Sequence<Text>, AllocError>
    ensures { IfOk result (λ copy. copy ≡ names.now) }
{
    let mut copy = Sequence::new(alloc);
    for name in names {
        copy.push(name.clone()?)?;
    }
    Ok(copy)
}

/// Returns one log with these runs.
pub fn one_log(alloc: Global, runs: &str) -> Result<Given, Fail> {
    let mut given = Given::new(alloc);
    let log = log_of(alloc, runs)?;
    given.log(alloc, log.as_str())?;
    Ok(given)
}

/// Returns one log and one baseline with these runs.
pub fn beside(alloc: Global, runs: &str, baseline_runs: &str) -> Result<Given, Fail> {
    let mut given = one_log(alloc, runs)?;
    let baseline = log_of(alloc, baseline_runs)?;
    given.baseline(alloc, baseline.as_str())?;
    Ok(given)
}

/// Random bytes in a fixed order: after the first one, each byte is the sum of the byte before it and a step.
#[derive(Clone, Copy)]
pub struct Bytes {
    /// The first byte.
    pub first: u8,
    /// What each byte after it adds.
    pub step: u8,
}

impl RandomSource for Bytes {
    fn fill_bytes(&self, buf: &mut [u8]) -> io::Result<()> {
        let mut next = self.first;
        for byte in buf {
            *byte = next;
            next = next.wrapping_add(self.step);
        }
        Ok(())
    }
}

/// Only zeros.
pub const ZEROS: Bytes = Bytes { first: 0, step: 0 };

/// Returns the seed of hash tables if the system returns these random bytes.
pub fn seed_of(bytes: Bytes) -> Result<RandomState, AllocError> {
    RandomState::new(&bytes).map_err(|_| AllocError)
}

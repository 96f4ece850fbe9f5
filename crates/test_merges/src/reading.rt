//! Merges of what readers return.
ghost use Rattle.std.specs.Prelude.{◌≡◌, ◌≤◌, ℕ, List, [], ◌∷◌, map, IfOk};
ghost use Rattle.std.specs.Borrow.{Bor};
ghost use Rattle.sarif_model.specs.Limits.{most_workers};
ghost use Rattle.sarif_streams.specs.Counted.{inner_of};
ghost use Rattle.sarif_streams.specs.Room.{HaveRoom};

use crate::given::{ZEROS, seed_of};
use sarif_gather::NoGate;
use sarif_log::Merged;
use sarif_merge::merge_readers;
use sarif_model::MergeFault;
use sarif_options::{Checks, Options, Policy};
use sarif_prepare::Asked;
use sarif_streams::{Counted, Readers};
use std::alloc::{AllocError, Global};
use std::sync::Wait;
use std::thread::Threads;

/// The sources of a merge, each as JSON. An empty string means that there is no such source.
#[derive(Clone, Copy)]
pub struct Texts<'t> {
    /// The only log. There is always one.
    pub log: &'t str,
    /// The baseline.
    pub baseline: &'t str,
    /// The suppression file.
    pub file: &'t str,
}

impl<'t> Texts<'t> {
    /// Returns one log without a baseline and a suppression file.
    pub fn of(log: &'t str) -> Texts<'t>
        ensures log { result.log.now ≡ log.now }
        ensures baseline { result.baseline.now ≡ [] }
        ensures file { result.file.now ≡ [] }
    {
        Texts {
            log,
            baseline: "",
            file: "",
        }
    }
}

/// Returns readers of these sources.
pub fn readers_of<'t>(alloc: Global, texts: Texts<'t>) -> Result<Readers<&'t [u8]>, AllocError>
    ensures log { IfOk result (λ readers.
        map (λ reader. (inner_of {D = Bor (List ℕ)} reader).now) readers.logs.items
        ≡ texts.entry.log.now ∷ []) }
    ensures room { IfOk result HaveRoom }
{
    let log: &'t [u8] = texts.log.as_bytes();
    let baseline: &'t [u8] = texts.baseline.as_bytes();
    let file: &'t [u8] = texts.file.as_bytes();
    Ok(Readers {
        logs: vec![in alloc; Counted::new(log)]?,
        baselines: if baseline.is_empty() {
            Vec::new(alloc)
        } else {
            vec![in alloc; Counted::new(baseline)]?
        },
        suppressions: if file.is_empty() {
            None
        } else {
            Some(Counted::new(file))
        },
        policy: None,
        diff: None,
    })
}

/// Returns the options of a merge by this many workers, with the default checks, on a system whose random bytes are 0.
pub fn options_by(
    alloc: Global,
    policy: Policy,
    today: Option<u32>,
    workers: u32,
) -> Result<Options, AllocError>
    requires workers { (1 ≤ workers) × (workers ≤ most_workers) }
    ensures policy { IfOk result (λ options. options.policy ≡ policy) }
    ensures today { IfOk result (λ options. options.today ≡ today) }
    ensures workers { IfOk result (λ options. options.workers ≡ workers) }
{
    Ok(Options {
        policy,
        checks: Checks::new(alloc),
        today,
        workers,
        seed: seed_of(ZEROS)?,
    })
}

/// Merges what readers of these sources return, without an observer.
pub fn merge_texts<R: AllocGlobal + Threads + Wait + Sync>(
    rt: &R,
    texts: Texts<'_>,
    asked: &Asked<'_>,
) -> Result<Merged, MergeFault> {
    let alloc = rt.alloc();
    let mut readers = readers_of(alloc, texts)?;
    let (merged, ()) = merge_readers(rt, alloc, &mut readers, asked, &NoGate, |_| Ok(()))?;
    Ok(merged)
}

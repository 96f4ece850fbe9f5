//! Merges, and checks of their results.
ghost use Rattle.std.specs.Prelude.{◌≡◌, ◌⊎◌, Some, IfOk, IfErr, string_bytes};
ghost use Rattle.sarif_inputs.specs.Faults.{first_fault};
ghost use Rattle.sarif_merge.specs.Given.{inputs_with};
ghost use Rattle.sarif_merge.specs.MergedLog.{output_text};
ghost use Rattle.sarif_model.specs.FirstFault.{IsOutOfResources};
ghost use Rattle.sarif_streams.specs.WereRead.{contents_of};

use crate::given::{Given, copy_of, seed_of};
use crate::runs::json_of_runs;
use crate::wanted::{ExpectedCounts, text_of};
use sarif_counts::Verdict;
use sarif_gather::{Gate, NoGate};
use sarif_log::Merged;
use sarif_merge::merge_bytes;
use sarif_model::{At, Cause, MergeFault};
use sarif_options::Options;
use std::sync::Wait;
use std::test::Fail;
use std::thread::Threads;

/// Merges these inputs. Returns `NoWorker` if the number of workers is not 1 to 64.
pub fn merge_watched<G: Gate + Sync, R: AllocGlobal + Threads + Wait + Sync>(
    rt: &R,
    given: &Given,
    observer: &G,
) -> Result<Merged, MergeFault>
    ensures log { IfOk result (λ merged. merged.log ≡ output_text
        (inputs_with (contents_of given.now.sources) given.now.today given.now.checks)
        given.now.policy) }
    ensures refusals { IfErr result (λ fault. IsOutOfResources fault ⊎ (first_fault
        (inputs_with (contents_of given.now.sources) given.now.today given.now.checks)
        ≡ Some fault)) }
{
    let workers = given.workers;
    if workers < 1 || 64 < workers {
        return Err(MergeFault {
            at: At::Nowhere,
            cause: Cause::NoWorker,
        });
    }
    let options = Options {
        policy: given.policy,
        checks: copy_of(rt.alloc(), &given.checks)?,
        today: given.today,
        workers,
        seed: seed_of(given.bytes)?,
    };
    merge_bytes(rt, rt.alloc(), &given.sources, &options, observer)
}

/// Merges these inputs without an observer.
pub fn merge<R: AllocGlobal + Threads + Wait + Sync>(
    rt: &R,
    given: &Given,
) -> Result<Merged, MergeFault>
    ensures log { IfOk result (λ merged. merged.log ≡ output_text
        (inputs_with (contents_of given.now.sources) given.now.today given.now.checks)
        given.now.policy) }
    ensures refusals { IfErr result (λ fault. IsOutOfResources fault ⊎ (first_fault
        (inputs_with (contents_of given.now.sources) given.now.today given.now.checks)
        ≡ Some fault)) }
{
    merge_watched(rt, given, &NoGate)
}

/// Fails if the strings differ. The failure shows both.
fn expect_text(text: &str, wanted: &str) -> Result<(), Fail>
    ensures same { IfOk result (λ _. text.now ≡ wanted.now) }
{
    if text == wanted {
        return Ok(());
    }
    Err(Fail::new(format_args!("{text}\nin place of\n{wanted}")))
}

/// Fails unless the gate passes, the merged log is this JSON, and the numbers of runs without results and of unused
/// suppressions are the expected ones.
fn expect_merged(merged: &Merged, text: &str, wanted: ExpectedCounts) -> Result<(), Fail>
    ensures log { IfOk result (λ _. merged.now.log ≡ text.now) }
    ensures without { IfOk result (λ _. merged.now.without ≡ wanted.without) }
    ensures unused { IfOk result (λ _. merged.now.unused ≡ wanted.unused) }
{
    expect_text(merged.log.as_str(), text)?;
    if merged.without != wanted.without {
        return Err(Fail::new("another number of runs without results"));
    }
    if merged.unused != wanted.unused {
        return Err(Fail::new("another number of unused suppressions"));
    }
    if merged.verdict != Verdict::Pass {
        return Err(Fail::new("the gate fails"));
    }
    Ok(())
}

/// Returns the merged log. Fails unless it is exactly the expected log with these runs, which are JSON.
pub fn expect_runs<R: AllocGlobal + Threads + Wait + Sync>(
    rt: &R,
    given: &Given,
    wanted: ExpectedCounts,
    runs: &str,
) -> Result<String, Fail>
    ensures log { IfOk result (λ log. string_bytes log ≡ output_text
        (inputs_with (contents_of given.now.sources) given.now.today given.now.checks)
        given.now.policy) }
{
    let merged = merge(rt, given)?;
    let text = text_of(rt.alloc(), wanted, runs)?;
    expect_merged(&merged, text.as_str(), wanted)?;
    Ok(text)
}

/// Returns the merged log. Fails unless it is exactly the expected log with these runs, which are in few words: each
/// is a tool and its results.
pub fn expect_log<R: AllocGlobal + Threads + Wait + Sync>(
    rt: &R,
    given: &Given,
    wanted: ExpectedCounts,
    runs: &str,
) -> Result<String, Fail>
    ensures log { IfOk result (λ log. string_bytes log ≡ output_text
        (inputs_with (contents_of given.now.sources) given.now.today given.now.checks)
        given.now.policy) }
{
    let runs = json_of_runs(rt.alloc(), runs)?;
    let log = expect_runs(rt, given, wanted, runs.as_str())?;
    Ok(log)
}

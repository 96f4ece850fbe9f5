//! The merge from readers into a writer.
ghost use Rattle.std.specs.Prelude.{◌≡◌, ◌<◌, ◌≤◌, ◌^◌, false, Ok, None, IfOk, IfErr, length};
ghost use Rattle.std.specs.Io.KnownBytes.{Appends};
ghost use Rattle.sarif_streams.specs.Counted.{inner_of, failed_calls, RisesIf};
ghost use Rattle.sarif_model.specs.MergeFault.{read_failed_in, write_failed_in};
ghost use Rattle.sarif_streams.specs.Room.{HaveRoom};
ghost use Rattle.sarif_log.specs.Beside.{IsMadeBy};
ghost use Rattle.sarif_prepare.specs.Asked.{choice_in, reporting_in, upkeep_in};
ghost use Rattle.sarif_merge.specs.FromReaders.{IsMergedFrom, IsMergedWith, IsPartlyWritten, IsRefused, IsRefusedWith, IsStopped};
ghost use Rattle.sarif_merge.specs.Life.{no_life};
ghost use Rattle.sarif_model.specs.Limits.{most_sources};
ghost use Rattle.sarif_streams.specs.WereRead.{contents_of, failures, NoNumberFalls, WereRead};
ghost use Rattle.sarif_model.specs.declared.merge_fault.At.TheVariants.{Whole};
ghost use Rattle.sarif_model.specs.declared.merge_fault.Cause.TheVariants.{WriteFailed};
ghost use Rattle.sarif_model.specs.declared.merge_fault.Source.TheVariants.{Output};

use crate::merge::{merge_few, tell_nothing};
use sarif_gather::Gate;
use sarif_inputs::check_numbers;
use sarif_log::{Facts, Merged};
use sarif_model::{At, Cause, MergeFault, Source};
use sarif_options::Options;
use sarif_prepare::Asked;
use sarif_streams::{Counted, Readers, SourceBytes, read_sources, rejection_of, write_out};
use std::alloc::{AllocError, Global};
use std::io::{Read, Write};
use std::sync::Wait;
use std::thread::Threads;

/// Reads all sources. A rejection is `ReadFailed` or `TooLong` at the first source that cannot be read to its end, or
/// `OutOfMemory` without a place.
#[tactic(auto, using(sarif_streams::proofs::QuietReaders::same_failure, sarif_streams::proofs::QuietReaders::no_write))]
fn read_all<R: Read>(alloc: Global, readers: &mut Readers<R>) -> Result<SourceBytes, MergeFault>
    requires few_logs { length readers.old.logs.items ≤ most_sources }
    requires few_baselines { length readers.old.baselines.items ≤ most_sources }
    requires room { HaveRoom readers.old }
    ensures read { IfOk result
        (λ sources. WereRead R.remaining readers.old readers.new (contents_of sources)) }
    ensures few_logs { IfOk result (λ sources. length sources.logs.items ≤ most_sources) }
    ensures few_baselines { IfOk result (λ sources. length sources.baselines.items ≤ most_sources) }
    ensures stopped { IfErr result (IsStopped R.remaining readers.old readers.new) }
    ensures read_failed { RisesIf (read_failed_in result)
        (failures readers.old) (failures readers.new) }
    ensures risen { NoNumberFalls readers.old readers.new }
    ensures unwritten { write_failed_in result ≡ false }
{
    match read_sources(alloc, readers) {
        Ok(sources) => Ok(sources),
        Err(refusal) => Err(rejection_of(refusal)),
    }
}

/// Merges logs and baselines from readers, as [`merge_bytes`](crate::merge_bytes) does with bytes: reads all
/// sources, the logs, the baselines, the suppression file, the policy and the diff, then merges what was read, and
/// writes nothing.
/// If findings are requested, the result has them too, and what `tell` computes from the facts of the merge
/// while the log's text is made. A rejection is `TooMany` for more than `MOST_SOURCES` logs, or otherwise for more than
/// `MOST_SOURCES` baselines; otherwise `ReadFailed` or `TooLong` at the first source that cannot be read to its
/// end; otherwise the first error of what was read, as [`merge_bytes`](crate::merge_bytes) returns it.
/// `OutOfMemory`, if memory runs out, including in `tell`, and `NoWorker`, if a thread cannot be started, have no
/// place.
#[tactic(auto, using(crate::proofs::Alone::refused_first))]
pub fn merge_readers<
    R: Read,
    G: Gate + Sync,
    T: Threads + Wait + Sync,
    B: Drop,
    Tell: FnOnce(&Facts<'_>) -> Result<B, AllocError>,
>(
    rt: &T,
    alloc: Global,
    readers: &mut Readers<R>,
    asked: &Asked<'_>,
    observer: &G,
    tell: Tell,
) -> Result<(Merged, B), MergeFault>
    requires room { HaveRoom readers.old }
    requires tells { Tell.IsAlwaysCallable tell }
    // Ok is returned only if all sources were read and have no errors; the result is the merge of these, with its
    // findings and with what is for later merges.
    ensures merged { IfOk result (λ made. IsMergedWith R.remaining readers.old readers.new
        asked.now.options.now (reporting_in asked.now) (choice_in asked.now) (upkeep_in asked.now)
        made.0) }
    // And what was made of it.
    ensures told { IfOk result (λ made. IsMadeBy Tell.FnOnce tell made.0 (Ok made.1)) }
    ensures refused { IfErr result (IsRefusedWith R.remaining readers.old readers.new
        asked.now.options.now (choice_in asked.now) (upkeep_in asked.now)) }
    // A failed read is reported as such, and only one.
    ensures read_failed { RisesIf (read_failed_in result)
        (failures readers.old) (failures readers.new) }
    ensures risen { NoNumberFalls readers.old readers.new }
    ensures unwritten { write_failed_in result ≡ false }
{
    check_numbers(readers.logs.len(), readers.baselines.len())?;
    let sources = read_all(alloc, readers)?;
    let made = merge_few(rt, alloc, &sources, asked, observer, tell)?;
    Ok(made)
}

/// Merges logs and baselines from readers into a writer: reads and merges as [`merge_readers`] does, then writes
/// the text of the log. The rejections are those of [`merge_readers`], which have written nothing, and
/// `WriteFailed` at the output, if a write failed: a part of the text may have been written then.
#[tactic(auto, using(crate::proofs::Alone::merged_alone, crate::proofs::Alone::kept_alone, crate::proofs::Alone::refused_alone))]
pub fn merge_to<R: Read, W: Write, G: Gate + Sync, T: Threads + Wait + Sync>(
    rt: &T,
    alloc: Global,
    readers: &mut Readers<R>,
    out: &mut Counted<W>,
    options: &Options,
    observer: &G,
) -> Result<Merged, MergeFault>
    requires room { HaveRoom readers.old }
    requires writes { failed_calls out.old < 2 ^ 63 }
    // Ok is returned only if all sources were read and have no errors; the result is the merge of these.
    ensures merged { IfOk result
        (IsMergedFrom R.remaining readers.old readers.new options.now None) }
    // Nothing is for later merges.
    ensures life { IfOk result (λ merged. merged.life ≡ no_life) }
    // The text was written, and nothing else.
    ensures written { IfOk result (λ merged. Appends (W.contents (inner_of out.old))
        (W.contents (inner_of out.new)) merged.log) }
    // A rejection before writing, and its cause.
    ensures refused { IfErr result (λ fault. (fault.cause ≡ WriteFailed → ⊥) → IsRefused R.remaining
        readers.old readers.new options.now fault) }
    ensures untouched { IfErr result
        (λ fault. (fault.cause ≡ WriteFailed → ⊥) → out.new ≡ out.old) }
    // A rejection while writing.
    ensures part { IfErr result (λ fault. fault.cause ≡ WriteFailed → IsPartlyWritten R.remaining
        readers.old readers.new options.now
        (W.contents (inner_of out.old)) (W.contents (inner_of out.new))) }
    ensures place { IfErr result (λ fault. fault.cause ≡ WriteFailed → fault.at ≡ Whole Output) }
    ensures read_failed { RisesIf (read_failed_in result)
        (failures readers.old) (failures readers.new) }
    ensures risen { NoNumberFalls readers.old readers.new }
    ensures write_failed { RisesIf (write_failed_in result)
        (failed_calls out.old) (failed_calls out.new) }
{
    let asked = Asked {
        options,
        reporting: None,
        upkeep: None,
        choice: None,
    };
    let (merged, ()) = merge_readers(rt, alloc, readers, &asked, observer, tell_nothing)?;
    match write_out(out, merged.log.as_str().as_bytes()) {
        Ok(()) => Ok(merged),
        Err(_) => Err(MergeFault::with_place(At::Whole(Source::Output), Cause::WriteFailed)),
    }
}

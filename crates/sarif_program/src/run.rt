//! Serves a request, over readers and writers of any kind.
ghost use Rattle.std.specs.Prelude.{◌≡◌, ◌<◌, ◌≤◌, ◌+◌, ◌↔◌, ◌⊎◌, false, nat_eq, IfOk, IfErr, Ok, Some, option_map};
ghost use Rattle.std.specs.List.{list_any};
ghost use Rattle.sarif_log.specs.Beside.{IsMadeBy};
ghost use Rattle.sarif_streams.specs.Counted.{RisesIf};
ghost use Rattle.sarif_streams.specs.Room.{HaveRoom};
ghost use Rattle.sarif_model.specs.MergeFault.{read_failed_in, write_failed_in};
ghost use Rattle.sarif_model.specs.declared.merge_fault.Cause.TheVariants.{OutOfMemory};
ghost use Rattle.sarif_counts.specs.Counts.{count_at};
ghost use Rattle.sarif_program.specs.Summary.{summary_for};
ghost use Rattle.sarif_merge.specs.FromReaders.{IsMergedWith, IsRefusedWith};
ghost use Rattle.sarif_streams.specs.WereRead.{failures, NoNumberFalls};
ghost use Rattle.sarif_program.specs.Notes.{lines_for, lines_with};
ghost use Rattle.sarif_program.specs.Rejected.{HasNoMerge, IsRejected, WereFaulty};
ghost use Rattle.sarif_program.specs.Reports.{report_for, report_with, reporting_for, texts_for};
ghost use Rattle.sarif_program.specs.Reports.{wanted_reports};
ghost use Rattle.sarif_program.specs.Run.{AllHaveRoom, IsAccepted, IsCutShort, IsQuiet, streams, views_of};
ghost use Rattle.sarif_reports.specs.Report.{needs_findings};
ghost use Rattle.sarif_program.specs.Writing.{NoWriterFalls, ReaderRises, WriterRises, writer_failures};

use crate::complaint::Complaints;
use crate::ending::{accept, refuse};
use crate::status::ExitStatus;
use crate::telling::{OutputTexts, texts_of};
use crate::writers::Writers;
use sarif_findings::Reporting;
use sarif_gather::NoGate;
use sarif_log::{Facts, Merged};
use sarif_merge::merge_readers;
use sarif_model::{MergeFault, Sequence, Text};
use sarif_prepare::Asked;
use sarif_request::{Request, RequestedOutput};
use sarif_streams::{Readers, sources_are_read_in_one_way};
use std::alloc::{AllocError, Global};
use std::io::{Read, Write};
use std::sync::Wait;
use std::thread::Threads;

/// Returns what the findings of a run are made by, or `None` if none of these writers' outputs needs findings.
fn reporting_of<W>(
    alloc: Global,
    request: &Request,
    writers: &[RequestedOutput<W>],
) -> Result<Option<Reporting>, AllocError>
    ensures { IfOk result
        (λ reporting. reporting ≡ reporting_for «request».now writers.now) }
{
    if !need_findings(writers) {
        return Ok(None);
    }
    let policy = request.options.policy;
    let roots = roots_of(alloc, request.roots.as_slice())?;
    Ok(Some(Reporting {
        policy,
        show: request.show,
        roots,
    }))
}

/// Returns whether one of these writers' outputs is made from findings.
fn need_findings<W>(writers: &[RequestedOutput<W>]) -> bool
    ensures { result ≡ list_any needs_findings (wanted_reports writers.now) }
{
    for wanted in writers {
        if wanted.report.needs_findings() {
            return true;
        }
    }
    false
}

/// Returns a copy of these roots.
fn roots_of(alloc: Global, roots: &[Text]) -> Result<Sequence<Text>, AllocError>
    ensures { IfOk result (λ copies. copies ≡ roots.now) }
{
    let mut copies = Sequence::new(alloc);
    for root in roots {
        copies.push(Text::copy_of(alloc, root.as_str())?)?;
    }
    Ok(copies)
}

/// Merges what the readers return, with findings if they are requested, and returns what `tell` computes too.
fn merge_told<
    'o,
    R: Read,
    T: Threads + Wait + Sync,
    B: Drop,
    Tell: FnOnce(&Facts<'_>) -> Result<B, AllocError>,
>(
    rt: &T,
    alloc: Global,
    request: &'o Request,
    made: &'o Option<Reporting>,
    readers: &mut Readers<R>,
    tell: Tell,
) -> Result<(Merged, B), MergeFault>
    requires room { HaveRoom readers.old }
    requires tells { Tell.IsAlwaysCallable tell }
    ensures merged { IfOk result (λ all. IsMergedWith R.remaining readers.old readers.new
        «request».now.options made.now «request».now.choice (Some «request».now.upkeep) all.0) }
    ensures told { IfOk result (λ all. IsMadeBy Tell.FnOnce tell all.0 (Ok all.1)) }
    ensures refused { IfErr result (IsRefusedWith R.remaining readers.old readers.new
        «request».now.options «request».now.choice (Some «request».now.upkeep)) }
    ensures read_failed { RisesIf (read_failed_in result)
        (failures readers.old) (failures readers.new) }
    ensures risen { NoNumberFalls readers.old readers.new }
    ensures unwritten { write_failed_in result ≡ false }
{
    let reporting = made.as_ref();
    let asked = Asked {
        options: &request.options,
        reporting,
        upkeep: Some(&request.upkeep),
        choice: request.choice.as_ref(),
    };
    merge_readers(rt, alloc, readers, &asked, &NoGate, tell)
}

/// Merges the sources for a request whose other outputs have these writers, and makes these outputs, the
/// lines on what is for later merges, and the summary.
fn merge_for<R: Read, W, T: Threads + Wait + Sync>(
    rt: &T,
    alloc: Global,
    request: &Request,
    readers: &mut Readers<R>,
    writers: &[RequestedOutput<W>],
) -> Result<(Merged, OutputTexts), MergeFault>
    requires room { HaveRoom readers.old }
    ensures merged { IfOk result (λ all. IsMergedWith R.remaining readers.old readers.new
        «request».now.options (reporting_for «request».now writers.now)
        «request».now.choice (Some «request».now.upkeep) all.0) }
    ensures summary { IfOk result (λ all. all.1.summary
        ≡ summary_for all.0.ruling all.0.change (count_at all.0.counts)
        «request».now.options.policy) }
    ensures lines { IfOk result (λ all. all.1.lines ≡ lines_for «request».now all.0) }
    ensures reports { IfOk result (λ all. all.1.reports.items
        ≡ texts_for writers.now (report_for «request».now all.0)) }
    ensures refused { IfErr result (λ fault. (fault.cause ≡ OutOfMemory → ⊥)
        → IsRefusedWith R.remaining readers.old readers.new «request».now.options
        «request».now.choice (Some «request».now.upkeep) fault) }
    ensures read_failed { RisesIf (read_failed_in result)
        (failures readers.old) (failures readers.new) }
    ensures risen { NoNumberFalls readers.old readers.new }
    ensures unwritten { write_failed_in result ≡ false }
{
    let made = reporting_of(alloc, request, writers)?;
    let tell = move |facts: &Facts<'_>| -> Result<OutputTexts, AllocError>
        ensures summary { IfOk result (λ texts. texts.summary
            ≡ summary_for (option_map (λ f. f.now) facts.now.ruling) facts.now.change
            (count_at facts.now.counts.now) «request».entry.now.options.policy) }
        ensures lines { IfOk result
            (λ texts. texts.lines ≡ lines_with «request».entry.now facts.now) }
        ensures reports { IfOk result (λ texts. texts.reports.items ≡ texts_for writers.entry.now
            (report_with «request».entry.now facts.now)) }
    { texts_of(rt, alloc, facts, request, writers) };
    merge_told(rt, alloc, request, &made, readers, tell)
}

/// Merges what the readers return, and writes the merged log, then the other outputs that there are writers for, then to
/// `complaints` the lines on what is for later merges and, with explanations, on what happened, and then the summary; or
/// it reports what stopped it. Returns the
/// program's exit status: 0 if the gate passes and 1 if it fails, 3 if a read or a write failed, and 2 if the merge was
/// rejected for another reason or memory ran out; then nothing was written. If a message or one of these lines cannot
/// be written, the status is the same.
pub fn run_request<R: Read, W: Write, S: Write, P: Write, E: Write, T: Threads + Wait + Sync>(
    rt: &T,
    alloc: Global,
    request: &Request,
    readers: &mut Readers<R>,
    writers: &mut Writers<W, S, P>,
    complaints: &mut Complaints<E>,
) -> ExitStatus
    requires { AllHaveRoom (streams readers.old writers.old complaints.old) }
    // 0 with the verdict pass and 1 with fail: all was read and merged, and each output was written.
    ensures accepted { result < 2 → IsAccepted
        (views_of R.remaining W.contents S.contents P.contents E.contents) «request».now
        (streams readers.old writers.old complaints.old)
        (streams readers.new writers.new complaints.new) result }
    // 3 if and only if a call of a reader, of `out`, of a report's writer or of `say` failed: then one did.
    ensures exactly { (result ≡ 3)
        ↔ (ReaderRises readers.old readers.new ⊎ WriterRises writers.old writers.new) }
    ensures failed { RisesIf (nat_eq result 3)
        (failures readers.old + writer_failures writers.old)
        (failures readers.new + writer_failures writers.new) }
    // A rejected merge, and one that stopped at a failed read, writes nothing and reports the reason.
    ensures untouched { HasNoMerge result readers.old readers.new → writers.new ≡ writers.old }
    ensures rejected { HasNoMerge result readers.old readers.new → IsRejected R.remaining
        E.contents «request».now readers.old readers.new complaints.old complaints.new result }
    // After a failed write the outputs before it were written, and those after it are unchanged.
    ensures lost { WriterRises writers.old writers.new → IsCutShort
        (views_of R.remaining W.contents S.contents P.contents E.contents) «request».now
        (streams readers.old writers.old complaints.old)
        (streams readers.new writers.new complaints.new) }
    ensures quiet { result < 2 → IsQuiet «request».now complaints.old complaints.new }
    ensures risen { NoNumberFalls readers.old readers.new × NoWriterFalls writers.old writers.new }
    ensures faulty { WereFaulty R.remaining «request».now readers.old readers.new → result ≡ 2 }
    ensures known { result ≤ 3 }
{
    sources_are_read_in_one_way::<R>();
    match merge_for(rt, alloc, request, readers, writers.reports.as_slice()) {
        Ok((merged, texts)) => accept(&merged, &texts, writers, complaints),
        Err(fault) => refuse(complaints, fault),
    }
}

//! How a run ends: the messages and the exit status.
ghost use Rattle.std.specs.Prelude.{◌≡◌, ◌<◌, ◌≤◌, ◌^◌, ℕ, List, nat_eq, length};
ghost use Rattle.std.specs.Io.KnownBytes.{Appends};
ghost use Rattle.sarif_streams.specs.Counted.{inner_of, failed_calls, RisesIf};
ghost use Rattle.sarif_model.specs.MergeFault.{exit_status};
ghost use Rattle.sarif_reports.specs.declared.report.Report.{Report};
ghost use Rattle.sarif_program.specs.Line.{HasComplained};
ghost use Rattle.sarif_program.specs.Lost.{HasLost, complaint_of};
ghost use Rattle.sarif_program.specs.Notes.{AreNoted};
ghost use Rattle.sarif_program.specs.Reports.{AreTaken, texts_for};
ghost use Rattle.sarif_program.specs.Status.{verdict_status};
ghost use Rattle.sarif_program.specs.Writing.{NoWriterFalls, WritersHaveRoom, writer_failures};
ghost use Rattle.sarif_program.specs.declared.complaint.Complaint.TheVariants.{Fault};

use crate::complaint::{Complaint, Complaints};
use crate::status::ExitStatus;
use crate::telling::OutputTexts;
use crate::writers::Writers;
use crate::writing::{Lost, put_outputs, put_summary};
use sarif_log::Merged;
use sarif_model::{At, Cause, MergeFault, Source};
use std::io::Write;

/// Reports why the merge was rejected. Returns the exit status.
pub(crate) fn refuse<E: Write>(complaints: &mut Complaints<E>, fault: MergeFault) -> ExitStatus
    requires { failed_calls complaints.old.out < 2 ^ 63 }
    ensures status { result ≡ exit_status fault.cause }
    ensures told { HasComplained E.contents (Fault fault) complaints.old complaints.new }
{
    complaints.complain(Complaint::Fault(fault));
    ExitStatus::of_cause(fault.cause)
}

/// Reports which output was not written. Returns the exit status.
fn tell_lost<E: Write>(complaints: &mut Complaints<E>, lost: Lost) -> ExitStatus
    requires { failed_calls complaints.old.out < 2 ^ 63 }
    ensures status { result ≡ 3 }
    ensures told { HasComplained E.contents (complaint_of lost) complaints.old complaints.new }
{
    match lost {
        Lost::Log => {
            let unwritten = MergeFault {
                at: At::Whole(Source::Output),
                cause: Cause::WriteFailed,
            };
            complaints.complain(Complaint::Fault(unwritten));
        }
        Lost::Report(report) => complaints.complain(Complaint::Lost(report)),
    }
    ExitStatus::for_lost_output()
}

/// Writes an accepted merge: its log, then the other outputs that there are writers for, then the lines on what is for
/// later merges, and then its summary. Returns the exit status: that of the verdict, or 3 if one of the outputs or the
/// summary was not written. A lost summary is reported by the status only, and lost lines are not reported.
pub(crate) fn accept<W: Write, S: Write, P: Write, E: Write>(
    merged: &Merged,
    texts: &OutputTexts,
    writers: &mut Writers<W, S, P>,
    complaints: &mut Complaints<E>,
) -> ExitStatus
    requires room { WritersHaveRoom writers.old }
    requires number { length texts.now.reports.items ≡ length writers.old.reports.items }
    requires complain { failed_calls complaints.old.out < 2 ^ 63 }
    ensures status { result < 2 → result ≡ verdict_status merged.now.verdict }
    ensures written { result < 2 → Appends (W.contents (inner_of writers.old.out))
        (W.contents (inner_of writers.new.out)) merged.now.log }
    ensures reported { result < 2 → AreTaken P.contents texts.now.reports.items
        writers.old.reports.items writers.new.reports.items }
    ensures said { result < 2 → Appends (S.contents (inner_of writers.old.say))
        (S.contents (inner_of writers.new.say)) texts.now.summary }
    ensures decided { result ≡ 2 → ⊥ }
    ensures failed { RisesIf (nat_eq result 3)
        (writer_failures writers.old) (writer_failures writers.new) }
    ensures risen { NoWriterFalls writers.old writers.new }
    ensures noted { result < 2
        → AreNoted E.contents texts.now.lines complaints.old complaints.new }
    ensures lost { result ≡ 3 → (report : Report → List ℕ)
        → texts.now.reports.items ≡ texts_for writers.old.reports.items report
        → HasLost (record {
          log = W.contents;
          report = P.contents;
          summary = S.contents;
          messages = E.contents;
        }) (record {
          log = merged.now.log;
          report = report;
          lines = texts.now.lines;
          summary = texts.now.summary;
        }) writers.old writers.new complaints.old complaints.new }
    ensures known { result ≤ 3 }
{
    if let Err(lost) = put_outputs(writers, &merged.log, texts) {
        return tell_lost(complaints, lost);
    }
    complaints.note(texts.lines.as_str());
    match put_summary(writers, texts) {
        Ok(()) => ExitStatus::of_verdict(merged.verdict),
        Err(_) => ExitStatus::for_lost_output(),
    }
}

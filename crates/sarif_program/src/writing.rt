//! Writing the outputs of an accepted merge.
ghost use Rattle.std.specs.Prelude.{◌≡◌, ◌<◌, ◌≤◌, ◌^◌, ℕ, List, OnErr, OnOk, IfErr, is_err, length};
ghost use Rattle.std.specs.List.{All};
ghost use Rattle.std.specs.Io.KnownBytes.{Appends};
ghost use Rattle.sarif_streams.specs.Counted.{inner_of, failed_calls, RisesIf};
ghost use Rattle.sarif_reports.specs.declared.report.Report.{Report as Output};
ghost use Rattle.sarif_streams.specs.Failing.{NoneFalls};
ghost use Rattle.sarif_program.specs.Lost.{IsCut, IsLostAt, IsLostIn};
ghost use Rattle.sarif_program.specs.Reports.{AreTaken, report_failures, texts_for};
ghost use Rattle.sarif_program.specs.Writing.{NoWriterFalls, WritersHaveRoom, writer_failures, writers_in};

use crate::telling::OutputTexts;
use crate::writers::Writers;
use sarif_model::Text;
use sarif_reports::Report;
use sarif_request::RequestedOutput;
use sarif_streams::{Counted, Failed, write_out};
use std::io::Write;

/// The output that was not written.
#[derive(Clone, Copy, Debug, PartialEq, Eq)]
pub(crate) enum Lost {
    /// The merged log.
    Log,
    /// Another one.
    Report(Report),
}

/// Writes an output completely, and then no bytes, which ends it: the writer commits what it accepted.
#[tactic(auto, using(crate::proofs::Ended::ended))]
fn put_out<W: Write>(out: &mut Counted<W>, text: &[u8]) -> Result<(), Failed>
    requires { failed_calls out.old < 2 ^ 63 }
    ensures whole { OnOk result (Appends (W.contents (inner_of out.old))
        (W.contents (inner_of out.new)) text.now) }
    ensures cut { OnErr result (IsCut W.contents text.now out.old out.new) }
    ensures counted { RisesIf (is_err result) (failed_calls out.old) (failed_calls out.new) }
{
    match write_out(out, text) {
        Ok(()) => {
            out.write(b"")?;
            Ok(())
        }
        Err(_) => Err(Failed),
    }
}

/// Writes the text of a report to its writer.
fn put_report<P: Write>(writer: &mut RequestedOutput<Counted<P>>, text: &Text) -> Result<(), Report>
    requires { failed_calls writer.old.to < 2 ^ 63 }
    ensures same { writer.new.report ≡ writer.old.report }
    ensures taken { OnOk result (Appends (P.contents (inner_of writer.old.to))
        (P.contents (inner_of writer.new.to)) text.now) }
    ensures lost { IfErr result (λ lost. lost ≡ writer.old.report) }
    ensures cut { OnErr result (IsCut P.contents text.now writer.old.to writer.new.to) }
    ensures counted { RisesIf (is_err result)
        (failed_calls writer.old.to) (failed_calls writer.new.to) }
{
    match put_out(&mut writer.to, text.as_str().as_bytes()) {
        Ok(()) => Ok(()),
        Err(_) => Err(writer.report),
    }
}

/// Writes the text of each report to its writer, in order, up to a report that is lost.
#[tactic(auto, using(sarif_streams::proofs::ReadersRead::none_has_fallen))]
fn put_reports<P: Write>(
    writers: &mut [RequestedOutput<Counted<P>>],
    texts: &[Text],
) -> Result<(), Report>
    requires room { All (λ wanted. failed_calls wanted.to < 2 ^ 63) writers.old }
    requires number { length texts.now ≡ length writers.old }
    ensures taken { OnOk result (AreTaken P.contents texts.now writers.old writers.new) }
    ensures lost { IfErr result (λ lost. (told : Output → List ℕ)
        → texts.now ≡ texts_for writers.old told
        → IsLostIn P.contents told writers.old writers.new lost) }
    ensures counted { RisesIf (is_err result)
        (report_failures writers.old) (report_failures writers.new) }
    ensures risen { NoneFalls (writers_in writers.old) (writers_in writers.new) }
{
    for (number, writer) in writers.iter_mut().enumerate() {
        put_report(writer, &texts[number])?;
    }
    Ok(())
}

/// Writes the merged log, and then the other outputs in their order, up to what is lost.
#[tactic(auto, using(sarif_streams::proofs::ReadersRead::none_has_fallen))]
pub(crate) fn put_outputs<W: Write, S, P: Write>(
    writers: &mut Writers<W, S, P>,
    log: &Text,
    texts: &OutputTexts,
) -> Result<(), Lost>
    requires room { WritersHaveRoom writers.old }
    requires number { length texts.now.reports.items ≡ length writers.old.reports.items }
    ensures log { OnOk result (Appends (W.contents (inner_of writers.old.out))
        (W.contents (inner_of writers.new.out)) log.now) }
    ensures reports { OnOk result (AreTaken P.contents texts.now.reports.items
        writers.old.reports.items writers.new.reports.items) }
    ensures lost { IfErr result (λ lost. (told : Output → List ℕ)
        → texts.now.reports.items ≡ texts_for writers.old.reports.items told
        → IsLostAt W.contents P.contents log.now told writers.old writers.new lost) }
    ensures counted { RisesIf (is_err result)
        (writer_failures writers.old) (writer_failures writers.new) }
    ensures risen { NoWriterFalls writers.old writers.new }
    ensures unsaid { writers.new.say ≡ writers.old.say }
{
    if put_out(&mut writers.out, log.as_str().as_bytes()).is_err() {
        return Err(Lost::Log);
    }
    match put_reports(writers.reports.as_mut_slice(), texts.reports.as_slice()) {
        Ok(()) => Ok(()),
        Err(report) => Err(Lost::Report(report)),
    }
}

/// Writes the summary.
#[tactic(auto, using(sarif_streams::proofs::ReadersRead::none_has_fallen))]
pub(crate) fn put_summary<W, S: Write, P>(
    writers: &mut Writers<W, S, P>,
    texts: &OutputTexts,
) -> Result<(), Failed>
    requires { failed_calls writers.old.say < 2 ^ 63 }
    ensures summary { OnOk result (Appends (S.contents (inner_of writers.old.say))
        (S.contents (inner_of writers.new.say)) texts.now.summary) }
    ensures cut { OnErr result (IsCut S.contents texts.now.summary
        writers.old.say writers.new.say) }
    ensures out { writers.new.out ≡ writers.old.out }
    ensures reports { writers.new.reports ≡ writers.old.reports }
    ensures counted { RisesIf (is_err result)
        (writer_failures writers.old) (writer_failures writers.new) }
    ensures risen { NoWriterFalls writers.old writers.new }
{
    match write_out(&mut writers.say, texts.summary.as_str().as_bytes()) {
        Ok(()) => Ok(()),
        Err(_) => Err(Failed),
    }
}

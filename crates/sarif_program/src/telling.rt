//! The outputs of a merge besides its log.
ghost use Rattle.std.specs.Prelude.{◌≡◌, ◌≤◌, IfOk, map, option_map, string_bytes};
ghost use Rattle.sarif_counts.specs.Counts.{count_at};
ghost use Rattle.sarif_shown.specs.Facts.{facts_of};
ghost use Rattle.sarif_reports.specs.Report.{report_of};
ghost use Rattle.sarif_program.specs.Notes as notes;
ghost use Rattle.sarif_program.specs.Reports.{report_with, wanted_reports, texts_for};
ghost use Rattle.sarif_program.specs.Summary.{summary_for};

use crate::notes::lines_with;
use sarif_conditions::summary_of_policy;
use sarif_log::Facts;
use sarif_model::Text;
use sarif_options::Policy;
use sarif_reports::{Report, report_text};
use sarif_request::{Request, RequestedOutput};
use sarif_scope::summary_told;
use sarif_shown::ReportInput;
use std::alloc::{AllocError, Global};
use std::thread;
use std::thread::Threads;

/// The outputs of an accepted merge, except its log.
#[derive(Debug, Drop)]
pub(crate) struct OutputTexts {
    /// The outputs besides the log, in the order of their writers.
    pub(crate) reports: Vec<Text>,
    /// The lines on what is for later merges and on what happened.
    pub(crate) lines: Text,
    pub(crate) summary: Text,
}

/// Returns the text of an output, made in at most `threads` threads, this one among them.
fn text_of<T: Threads + Sync>(
    rt: &T,
    alloc: Global,
    told: &ReportInput<'_>,
    report: Report,
    threads: u32,
) -> Result<Text, AllocError>
    requires { 1 ≤ threads }
    ensures { IfOk result (λ text. text ≡ report_of report (facts_of told.now)) }
{
    Text::from_string(report_text(rt, alloc, report, told, threads)?)
}

/// Returns the contents of these outputs, made at the same time. One that shares its work among threads uses at
/// most `threads`.
fn texts_told<T: Threads + Sync>(
    rt: &T,
    alloc: Global,
    told: &ReportInput<'_>,
    reports: Vec<Report>,
    threads: u32,
) -> Result<Vec<Text>, AllocError>
    requires { 1 ≤ threads }
    ensures { IfOk result (λ texts. texts.items
        ≡ map (λ one. report_of one (facts_of told.now)) reports.items) }
{
    let tell = move |report: Report| -> Result<Text, AllocError>
        requires { 1 ≤ threads }
        ensures { IfOk result (λ text. text ≡ report_of report (facts_of told.entry.now)) }
    { text_of(rt, alloc, told, report, threads) };
    let made = thread::map_vec(rt, reports, &tell)?;
    all_made(alloc, made)
}

/// Returns the contents that were made, in order, or `AllocError` if one of them was not.
fn all_made(alloc: Global, made: Vec<Result<Text, AllocError>>) -> Result<Vec<Text>, AllocError>
    ensures { IfOk result (λ texts. map (λ text. Ok text) texts.items ≡ made.items) }
{
    let mut texts = Vec::new(alloc);
    for text in made {
        texts.push(text?)?;
    }
    Ok(texts)
}

/// Returns the outputs that there are writers for, in the order of the writers.
fn wanted_reports<W>(
    alloc: Global,
    writers: &[RequestedOutput<W>],
) -> Result<Vec<Report>, AllocError>
    ensures { IfOk result (λ reports. reports.items ≡ wanted_reports writers.now) }
{
    let mut reports = Vec::new(alloc);
    for wanted in writers {
        reports.push(wanted.report)?;
    }
    Ok(reports)
}

/// Returns the contents of the outputs that there are writers for, of a merge with these facts.
fn reports_of<W, T: Threads + Sync>(
    rt: &T,
    alloc: Global,
    facts: &Facts<'_>,
    request: &Request,
    writers: &[RequestedOutput<W>],
) -> Result<Vec<Text>, AllocError>
    ensures { IfOk result
        (λ texts. texts.items ≡ texts_for writers.now (report_with request.now facts.now)) }
{
    let told = ReportInput {
        counts: facts.counts,
        policy: &request.options.policy,
        show: request.show,
        link: request.link.as_ref(),
        findings: facts.findings.as_slice(),
        without: facts.without,
        unused: facts.unused,
        life: Some(facts.life),
        change: facts.change,
        ruling: facts.ruling,
        seed: request.options.seed,
    };
    let reports = wanted_reports(alloc, writers)?;
    texts_told(rt, alloc, &told, reports, request.options.workers)
}

/// The table that is printed after a merge with these facts.
fn summary_text(alloc: Global, facts: &Facts<'_>, policy: &Policy) -> Result<String, AllocError>
    ensures { IfOk result (λ s. string_bytes s
        ≡ summary_for (option_map (λ f. f.now) facts.now.ruling) facts.now.change
        (count_at facts.now.counts.now) policy.now) }
{
    match facts.ruling {
        Some(ruling) => summary_of_policy(alloc, facts.counts, ruling, &facts.change),
        None => summary_told(alloc, facts.counts, policy, &facts.change),
    }
}

/// Returns the summary of a merge with these facts, the lines after it, and the contents of the outputs that there are
/// writers for. The threads of the options share the work of reports.
pub(crate) fn texts_of<W, T: Threads + Sync>(
    rt: &T,
    alloc: Global,
    facts: &Facts<'_>,
    request: &Request,
    writers: &[RequestedOutput<W>],
) -> Result<OutputTexts, AllocError>
    ensures summary { IfOk result (λ texts. texts.summary
        ≡ summary_for (option_map (λ f. f.now) facts.now.ruling) facts.now.change
        (count_at facts.now.counts.now) request.now.options.policy) }
    ensures lines { IfOk result
        (λ texts. texts.lines ≡ notes.lines_with request.now facts.now) }
    ensures reports { IfOk result (λ texts. texts.reports.items
        ≡ texts_for writers.now (report_with request.now facts.now)) }
{
    let summary = summary_text(alloc, facts, &request.options.policy)?;
    let summary = Text::from_string(summary)?;
    let lines = lines_with(alloc, request, facts)?;
    let reports = reports_of(rt, alloc, facts, request, writers)?;
    Ok(OutputTexts {
        reports,
        lines,
        summary,
    })
}

//! The outputs besides the merged log as rows: a variant for each, with its name, its help and its content.
ghost use Rattle.std.specs.Prelude.{◌≡◌, ◌≤◌, IfOk, string_bytes};
ghost use Rattle.sarif_shown.specs.Facts.{facts_of};
ghost use Rattle.sarif_reports.specs.Help.{help_of};
ghost use Rattle.sarif_reports.specs.Report.{is_for_merges, needs_findings, report_name, report_of};

use crate::later_outputs::{known_text, suppressions_text, unused_text};
use sarif_shown::{ReportInput, Screen};
use std::alloc::{AllocError, Global};
use std::fmt;
use std::thread::Threads;

/// An output besides the merged log: a report on it, or a file for later merges.
#[derive(Clone, Copy, Debug, PartialEq, Eq)]
pub enum Report {
    /// For later merges: a new suppression file.
    Suppressions,
    /// For later merges: a log of what is known, as their baseline.
    Known,
    /// For people, editors and problem matchers: one line per result.
    Text,
    /// For GitHub Actions: one workflow command per result.
    Github,
    /// For job summaries and comments on a change: the verdict, the counts and a table.
    Markdown,
    /// For GitLab's code quality widget: one JSON array.
    Gitlab,
    /// For people: a self-contained page.
    Html,
    /// For build services: a document in JUnit XML.
    Junit,
    /// For Azure Pipelines: one logging command per result.
    Azure,
    /// For people: one line per entry of the suppression file that matches nothing.
    Unused,
    /// For people at a terminal: the first hits. It has no option, and comes after the others.
    Terminal(Screen),
}

impl Report {
    /// All that have an option, in the order in which they are written.
    pub const ALL: &'static [Report] = &[
        Report::Suppressions,
        Report::Known,
        Report::Text,
        Report::Github,
        Report::Markdown,
        Report::Gitlab,
        Report::Html,
        Report::Junit,
        Report::Azure,
        Report::Unused,
    ];

    /// Returns the name of this output, which is also the name of its option, if it has one.
    pub fn name(self) -> &'static str
        ensures { result.now ≡ report_name self }
    {
        match self {
            Report::Suppressions => "suppress-out",
            Report::Known => "known",
            Report::Text => "text",
            Report::Github => "github",
            Report::Markdown => "markdown",
            Report::Gitlab => "gitlab",
            Report::Html => "html",
            Report::Junit => "junit",
            Report::Azure => "azure",
            Report::Unused => "unused",
            Report::Terminal(_) => "terminal",
        }
    }

    /// Returns what `--help` says about the option of this output, or nothing if it has none.
    pub fn help(self) -> &'static str
        ensures { result.now ≡ help_of self }
    {
        match self {
            Report::Suppressions =>
                "Write a new suppression file, made with --accept, --prune or both. It\n\
                may replace the file of --suppress",
            Report::Known =>
                "Write a log of what is known, as the baseline of later merges. It may\n\
                replace the only --baseline",
            Report::Text =>
                "Write one line per reported result, for people, editors and problem\nmatchers",
            Report::Github => "Write one workflow command of GitHub Actions per reported result",
            Report::Markdown =>
                "Write the verdict, the counts and a table, for job summaries and comments",
            Report::Gitlab => "Write a JSON report for GitLab's code quality widget",
            Report::Html => "Write an HTML page that needs no other file",
            Report::Junit =>
                "Write JUnit XML with a test case per reported result, for build services",
            Report::Azure => "Write one logging command of Azure Pipelines per reported result",
            Report::Unused =>
                "Write one line per entry of the suppression file that matches no result.\n\
                Needs --suppress",
            Report::Terminal(_) => "",
        }
    }

    /// Returns whether this output is made from the findings of a merge.
    pub fn needs_findings(self) -> bool
        ensures { result ≡ needs_findings self }
    {
        !matches!(self, Report::Suppressions | Report::Known | Report::Unused)
    }

    /// Returns whether a later merge reads this output: as its suppression file or as its baseline.
    pub fn is_for_merges(self) -> bool
        ensures { result ≡ is_for_merges self }
    {
        matches!(self, Report::Suppressions | Report::Known)
    }
}

/// Writes what error messages call the output.
impl fmt::Display for Report {
    ghost use Rattle.std.specs.Prelude.{Some};
    ghost use Rattle.sarif_reports.specs.Report.{output_name};

    ghost output = { λ report. Some (output_name report) };

    fn fmt<W: fmt::Write>(&self, f: &mut fmt::Formatter<W>) -> fmt::Result {
        match *self {
            Report::Suppressions => f.write_str("new suppressions"),
            Report::Known => f.write_str("known log"),
            report => {
                let name = report.name();
                write!(f, "{name} report")
            }
        }
    }
}

/// Returns the text of an output. At most `threads` threads make it, including this one. Returns `AllocError` if
/// memory runs out.
pub fn report_text<R: Threads + Sync>(
    rt: &R,
    alloc: Global,
    report: Report,
    told: &ReportInput<'_>,
    threads: u32,
) -> Result<String, AllocError>
    requires { 1 ≤ threads }
    ensures { IfOk result (λ s. string_bytes s ≡ report_of report (facts_of told.now)) }
{
    match report {
        Report::Suppressions => suppressions_text(alloc, told.life),
        Report::Known => known_text(alloc, told.life),
        Report::Text => sarif_shown::text_report(alloc, told.findings),
        Report::Github => sarif_shown::github_report(alloc, told.findings),
        Report::Markdown => crate::markdown_report(alloc, told),
        Report::Gitlab => crate::gitlab_report(rt, alloc, told.findings, threads),
        Report::Html => sarif_page::html_report(alloc, told),
        Report::Junit => crate::junit_report(alloc, told),
        Report::Azure => sarif_shown::azure_report(alloc, told.findings),
        Report::Unused => unused_text(alloc, told.life),
        Report::Terminal(screen) => sarif_shown::terminal_report(alloc, screen, told.findings),
    }
}

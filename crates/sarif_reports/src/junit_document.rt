//! The report for services that read JUnit XML.
ghost use Rattle.std.specs.Prelude.{◌≡◌, ◌+◌, ◌<◌, ◌^◌, ◌++◌, ℕ, List, [], IfOk, OnOk, string_bytes};
ghost use Rattle.std.specs.Prelude.{bytes_eq, flat_map, length, slice_get, if◌then◌else◌};
ghost use Rattle.sarif_shown.specs.Facts.{facts_of};
ghost use Rattle.sarif_shown.specs.Stopping.{is_let_pass as hit_let_pass};
ghost use Rattle.sarif_reports.specs.JunitReport as said;
ghost use Rattle.sarif_reports.specs.Internal.Suites.{counted, entry_text, pointed, text_at};

use crate::junit_case::push_case;
use crate::junit_names::{count, number_name, plain_name};
use crate::junit_parts::{
    document_end, document_head, passed_document, push_attribute, push_counted, suite_end,
};
use crate::junit_suites::{Suites, suites_of};
use indexmap::IndexMap;
use sarif_counts::Impact;
use sarif_findings::Finding;
use sarif_shown::{ReportInput, Stopping, gate_stopping, list_findings};
use std::alloc::{AllocError, Global};
use std::hash::RandomState;

fn one_if(test: bool) -> usize
    ensures { result ≡ (if test then 1 else 0) }
{
    if test { 1 } else { 0 }
}

/// How many of these results are test cases that fail.
fn failures_in(stopping: Stopping, findings: &[&Finding]) -> usize
    ensures { result ≡ said.failures_in stopping (pointed findings.now) }
{
    let mut failures: usize = 0;
    for finding in findings {
        let fails = stopping.stops(finding.impact);
        failures += one_if(fails);
    }
    failures
}

/// Whether a result is a hit that doesn't stop the change.
fn is_let_pass(stopping: Stopping, impact: Impact) -> bool
    ensures { result ≡ hit_let_pass stopping impact }
{
    impact.is_hit() && !stopping.stops(impact)
}

/// How many of these results are test cases that are skipped.
fn skipped_in(stopping: Stopping, findings: &[&Finding]) -> usize
    ensures { result ≡ said.skipped_in stopping (pointed findings.now) }
{
    let mut skipped: usize = 0;
    for finding in findings {
        let skips = is_let_pass(stopping, finding.impact);
        skipped += one_if(skips);
    }
    skipped
}

/// How many test cases there are for these results.
#[tactic(auto, using(crate::proofs::CasesMore::length_pointed))]
fn tests_in(findings: &[&Finding]) -> usize
    ensures { result ≡ length (pointed findings.now) }
{
    findings.len()
}

/// Adds the numbers of test cases and of failures.
#[tactic(auto, unfolding(crate::specs::JunitReport::test_counts))]
fn push_counts(
    alloc: Global,
    text: &mut String,
    stopping: Stopping,
    findings: &[&Finding],
) -> Result<(), AllocError>
    ensures { OnOk result (string_bytes text.new
        ≡ string_bytes text.old ++ said.test_counts stopping (pointed findings.now)) }
{
    push_counted(alloc, text, "\" tests=\"", tests_in(findings))?;
    push_counted(
        alloc,
        text,
        "\" failures=\"",
        failures_in(stopping, findings),
    )?;
    Ok(())
}

/// Adds the beginning of a suite.
#[tactic(auto, unfolding(crate::specs::JunitReport::suite_begin))]
fn push_suite_begin(
    alloc: Global,
    text: &mut String,
    stopping: Stopping,
    tool: &str,
    findings: &[&Finding],
) -> Result<(), AllocError>
    ensures { OnOk result (string_bytes text.new
        ≡ string_bytes text.old ++ said.suite_begin stopping tool.now (pointed findings.now)) }
{
    push_attribute(alloc, text, "<testsuite name=\"", tool)?;
    push_counts(alloc, text, stopping, findings)?;
    push_counted(alloc, text, "\" skipped=\"", skipped_in(stopping, findings))?;
    text.push_str("\">\n")?;
    Ok(())
}

/// Adds the test case of the next result of a suite, whose name is counted.
fn push_next_case(
    alloc: Global,
    text: &mut String,
    counts: &mut IndexMap<String, u64, RandomState>,
    stopping: Stopping,
    finding: &Finding,
) -> Result<(), AllocError>
    requires room { counted counts.old (said.plain_name finding.now) < 2 ^ 63 }
    ensures written { OnOk result (string_bytes text.new ≡ string_bytes text.old
        ++ said.test_case stopping (said.nth_name (said.plain_name finding.now)
        (counted counts.old (said.plain_name finding.now) + 1)) finding.now) }
    ensures counted { OnOk result ((name : List ℕ) → counted counts.new name
        ≡ counted counts.old name
        + (if bytes_eq name (said.plain_name finding.now) then 1 else 0)) }
{
    let mut name = plain_name(alloc, finding)?;
    let number = count(alloc, counts, name.as_str())?;
    number_name(alloc, &mut name, number)?;
    push_case(alloc, text, stopping, name.as_str(), finding)?;
    Ok(())
}

/// Adds the test cases of a suite. Equal names are counted in a table that hashes with `seed`.
fn push_cases(
    alloc: Global,
    text: &mut String,
    stopping: Stopping,
    seed: RandomState,
    findings: &[&Finding],
) -> Result<(), AllocError>
    ensures { OnOk result (string_bytes text.new
        ≡ string_bytes text.old ++ said.cases_after stopping [] (pointed findings.now)) }
{
    let mut counts: IndexMap<String, u64, RandomState> = IndexMap::with_hasher(alloc, seed);
    for finding in findings {
        push_next_case(alloc, text, &mut counts, stopping, finding)?;
    }
    Ok(())
}

/// Adds the suite of a tool with these results.
fn push_suite(
    alloc: Global,
    text: &mut String,
    stopping: Stopping,
    seed: RandomState,
    tool: &str,
    findings: &[&Finding],
) -> Result<(), AllocError>
    ensures { OnOk result (string_bytes text.new
        ≡ string_bytes text.old ++ said.suite_of stopping tool.now (pointed findings.now)) }
{
    push_suite_begin(alloc, text, stopping, tool, findings)?;
    push_cases(alloc, text, stopping, seed, findings)?;
    text.push_str(suite_end())?;
    Ok(())
}

/// Adds the suite with this number, if there is one.
fn push_suite_at(
    alloc: Global,
    text: &mut String,
    stopping: Stopping,
    seed: RandomState,
    suites: &Suites<'_>,
    number: usize,
) -> Result<(), AllocError>
    ensures { OnOk result (string_bytes text.new ≡ string_bytes text.old
        ++ text_at stopping (slice_get suites.now.entries number)) }
{
    if let Some((tool, results)) = suites.get_index(number) {
        let results = results.as_slice();
        push_suite(alloc, text, stopping, seed, tool.as_str(), results)?;
    }
    Ok(())
}

/// Adds all suites.
fn push_all_suites(
    alloc: Global,
    text: &mut String,
    stopping: Stopping,
    seed: RandomState,
    suites: &Suites<'_>,
) -> Result<(), AllocError>
    ensures { OnOk result (string_bytes text.new
        ≡ string_bytes text.old ++ flat_map (entry_text stopping) suites.now.entries) }
{
    for number in 0..suites.len() {
        push_suite_at(alloc, text, stopping, seed, suites, number)?;
    }
    Ok(())
}

/// Adds the suites of these results.
fn push_suites(
    alloc: Global,
    text: &mut String,
    stopping: Stopping,
    seed: RandomState,
    findings: &[&Finding],
) -> Result<(), AllocError>
    ensures { OnOk result (string_bytes text.new
        ≡ string_bytes text.old ++ said.suites_in stopping (pointed findings.now)) }
{
    let suites = suites_of(alloc, seed, findings)?;
    push_all_suites(alloc, text, stopping, seed, &suites)?;
    Ok(())
}

/// Adds the beginning of the document.
#[tactic(auto, unfolding(crate::specs::JunitReport::document_begin))]
fn push_document_begin(
    alloc: Global,
    text: &mut String,
    stopping: Stopping,
    findings: &[&Finding],
) -> Result<(), AllocError>
    ensures { OnOk result (string_bytes text.new
        ≡ string_bytes text.old ++ said.document_begin stopping (pointed findings.now)) }
{
    text.push_str(document_head())?;
    push_counts(alloc, text, stopping, findings)?;
    text.push_str("\">\n")?;
    Ok(())
}

/// The document of these results, with tables that hash with `seed`.
fn junit_document(
    alloc: Global,
    seed: RandomState,
    stopping: Stopping,
    findings: &[&Finding],
) -> Result<String, AllocError>
    ensures { IfOk result
        (λ s. string_bytes s ≡ said.junit_document stopping (pointed findings.now)) }
{
    if tests_in(findings) == 0 {
        return String::from_str(alloc, passed_document());
    }
    let mut text = String::new(alloc);
    push_document_begin(alloc, &mut text, stopping, findings)?;
    push_suites(alloc, &mut text, stopping, seed, findings)?;
    text.push_str(document_end())?;
    Ok(text)
}

/// Returns the report for services that read JUnit XML: a test case per result, in a test suite per tool. A hit is a
/// test case that fails, or one that is skipped if the gate passes. If nothing is reported, one test case passes.
/// Returns `AllocError` if memory for it runs out.
pub fn junit_report(alloc: Global, told: &ReportInput<'_>) -> Result<String, AllocError>
    ensures { IfOk result (λ s. string_bytes s ≡ said.junit_of (facts_of told.now)) }
{
    let stopping = gate_stopping(told);
    let listed = list_findings(alloc, told.findings)?;
    junit_document(alloc, told.seed, stopping, listed.as_slice())
}

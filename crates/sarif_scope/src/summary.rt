//! The summary of a merge whose gate is for one change.
ghost use Rattle.std.specs.Prelude.{◌≡◌, ◌-◌, ◌++◌, ℕ, List, IfOk, string_bytes};
ghost use Rattle.sarif_counts.specs.Counts.{count_at};
ghost use Rattle.sarif_counts.specs.Hits.{hits_of};
ghost use Rattle.sarif_counts.specs.Summary.{gate_line};
ghost use Rattle.sarif_scope.specs.Summary as said;

use crate::facts::ChangeFacts;
use crate::hits::{hits_inside, verdict_inside};
use sarif_counts::{Counts, Verdict, hits, summary, verdict};
use sarif_options::Policy;
use std::alloc::{AllocError, Global};

/// The line on the gate.
fn gate_row(alloc: Global, verdict: Verdict, hits: u32, max: u32) -> Result<String, AllocError>
    ensures { IfOk result (λ s. string_bytes s ≡ gate_line verdict hits max) }
{
    let word = verdict.name();
    format!(in alloc; "gate: {word}, hits {hits}, max {max}\n")
}

/// The line on the change.
fn diff_row(alloc: Global, facts: &ChangeFacts) -> Result<String, AllocError>
    ensures { IfOk result (λ s. string_bytes s ≡ said.diff_line facts.now) }
{
    let files = facts.files;
    let lines = facts.lines;
    let outside = facts.outside;
    format!(in alloc; "diff: files {files}, lines {lines}, outside {outside}\n")
}

/// The text before this end, or the whole text if it has another one.
fn before_end<'t>(text: &'t str, end: &str) -> &'t str
    ensures { (front : List ℕ) → text.now ≡ front ++ end.now → result.now ≡ front }
{
    match text.strip_suffix(end) {
        Some(front) => front,
        None => text,
    }
}

/// Returns the table of the counts, without the line on the gate: a heading, and a line for each of the states new,
/// unchanged, updated and absent. Returns `AllocError` if memory for it runs out.
pub fn counts_table(alloc: Global, counts: &Counts) -> Result<String, AllocError>
    ensures { IfOk result (λ s. string_bytes s ≡ said.table_of (count_at counts.now)) }
{
    let policy = &Policy::default();
    let whole = summary(alloc, counts, policy)?;
    let verdict = verdict(counts, policy);
    let gate = gate_row(alloc, verdict, hits(counts, policy), policy.max)?;
    let table = String::from_str(alloc, before_end(whole.as_str(), gate.as_str()))?;
    Ok(table)
}

/// Returns a table of the counts in seven lines, each with a newline: those of
/// [`summary`](sarif_counts::summary), and before the last one the change. The verdict and the hits are those of the
/// results inside. Returns `AllocError` if memory for it runs out.
pub fn summary_of_change(
    alloc: Global,
    counts: &Counts,
    policy: &Policy,
    facts: &ChangeFacts,
) -> Result<String, AllocError>
    ensures { IfOk result (λ s. string_bytes s ≡ said.summary_of_change (count_at counts.now)
        (hits_of (count_at counts.now) policy.now - facts.now.outside) facts.now policy.now) }
{
    let mut text = counts_table(alloc, counts)?;
    text.push_str(diff_row(alloc, facts)?.as_str())?;
    let found = hits_inside(counts, policy, facts.outside);
    let verdict = verdict_inside(counts, policy, facts.outside);
    text.push_str(gate_row(alloc, verdict, found, policy.max)?.as_str())?;
    Ok(text)
}

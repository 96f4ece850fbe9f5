//! The report for GitLab's code quality widget.
ghost use Rattle.std.specs.Prelude.{◌≡◌, ◌≤◌, string_bytes, IfOk};
ghost use Rattle.sarif_reports.specs.GitlabReport as said;

use crate::identities::identities_of;
use crate::objects::objects_of;
use crate::ranking::rank_all;
use sarif_findings::Finding;
use std::alloc::{AllocError, Global};
use std::thread::Threads;

/// Returns the report for GitLab's code quality widget, a JSON array. It has one object per result, with a unique
/// fingerprint: a hash of the result's tool, rule, path and message, and the number of earlier results with the
/// same four. At most `threads` threads, including this one, hash the results and make the objects. Returns
/// `AllocError` if memory runs out.
#[tactic(auto, using(crate::proofs::GitlabMore::whole_array))]
pub fn gitlab_report<R: Threads + Sync>(
    rt: &R,
    alloc: Global,
    findings: &[Finding],
    threads: u32,
) -> Result<String, AllocError>
    requires { 1 ≤ threads }
    ensures { IfOk result (λ s. string_bytes s ≡ said.gitlab_of findings.now) }
{
    let identities = identities_of(rt, alloc, findings, threads)?;
    let ranked = rank_all(alloc, findings, &identities)?;
    let mut text = objects_of(rt, alloc, "[", &ranked, threads)?;
    text.push_str("]")?;
    Ok(text)
}

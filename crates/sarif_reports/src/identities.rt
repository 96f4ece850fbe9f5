//! What GitLab's fingerprints are made from, hashed in threads.
ghost use Rattle.std.specs.Prelude.{◌≡◌, ◌++◌, map, string_bytes, IfOk, OnOk};
ghost use Rattle.sha2.specs.Sha256.{sha256};
ghost use Rattle.serde_json.specs.Written.{compact_text};
ghost use Rattle.sarif_reports.specs.GitlabReport as said;
ghost use Rattle.sarif_reports.specs.GitlabParts.{quoted_text, identity_of, identity_with, rank_text};

use crate::quoted::push_quoted;
use sarif_findings::Finding;
use sarif_model::Text;
use sarif_share::{Sharing, share_each};
use sha2::{Digest, Sha256};
use std::alloc::{AllocError, Global};
use std::thread::Threads;

/// For fewer results it is not worth starting another thread.
const LEAST_SHARED: usize = 32;

/// The initial capacity for the text of one result, in bytes.
const FIRST_ROOM: usize = 256;

/// What results that are alike have in common.
#[derive(Drop)]
pub(crate) struct Identity {
    /// The beginning of an array.
    pub(crate) text: Text,
    /// What is hashed of the first result with it, hashed.
    pub(crate) first: [u8; 32],
}

/// Adds a path as JSON writes it, or `null`.
#[tactic(auto, unfolding(crate::specs::GitlabParts::quoted_text))]
fn push_path(alloc: Global, text: &mut String, path: &Option<Text>) -> Result<(), AllocError>
    ensures { OnOk result (string_bytes text.new
        ≡ string_bytes text.old ++ compact_text (said.path_or_null path.now)) }
{
    match path {
        Some(path) => push_quoted(alloc, text, path.as_str())?,
        None => text.push_str("null")?,
    }
    Ok(())
}

/// What results that are alike have in common, as the beginning of an array.
#[tactic(auto, unfolding(crate::specs::GitlabParts::identity_of))]
fn identity_text(alloc: Global, finding: &Finding) -> Result<String, AllocError>
    ensures { IfOk result (λ s. string_bytes s ≡ identity_of finding.now) }
{
    let mut text = String::with_capacity(alloc, FIRST_ROOM)?;
    text.push_str("[")?;
    push_quoted(alloc, &mut text, finding.tool.as_str())?;
    text.push_str(",")?;
    push_quoted(alloc, &mut text, finding.rule.as_str())?;
    text.push_str(",")?;
    push_path(alloc, &mut text, &finding.path)?;
    text.push_str(",")?;
    push_quoted(alloc, &mut text, finding.message.as_str())?;
    Ok(text)
}

/// What is hashed of a result that has none like it before it, hashed.
fn first_digest(identity: &str) -> [u8; 32]
    ensures { result ≡ sha256 (identity.now ++ rank_text 0) }
{
    let mut hasher = Sha256::new();
    hasher.update(identity.as_bytes());
    hasher.update(b",0]");
    hasher.finalize()
}

fn identify(alloc: Global, finding: &Finding) -> Result<Identity, AllocError>
    ensures { IfOk result (λ made. made ≡ identity_with finding.now) }
{
    let text = Text::from_string(identity_text(alloc, finding)?)?;
    let first = first_digest(text.as_str());
    Ok(Identity { text, first })
}

/// The identities of these results, made in at most `threads` threads, this one among them.
pub(crate) fn identities_of<R: Threads + Sync>(
    rt: &R,
    alloc: Global,
    findings: &[Finding],
    threads: u32,
) -> Result<Vec<Identity>, AllocError>
    ensures { IfOk result (λ made. made.items ≡ map identity_with findings.now) }
{
    let sharing = Sharing {
        rt,
        alloc,
        threads,
        least: LEAST_SHARED,
    };
    let one = |finding: &Finding| -> Result<Identity, AllocError>
        ensures { IfOk result (λ made. made ≡ identity_with finding.now) }
    { identify(alloc, finding) };
    let made = share_each(&sharing, findings, &one)?;
    Ok(made)
}

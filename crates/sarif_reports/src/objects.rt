//! The objects of results in the report for GitLab, made in threads.
ghost use Rattle.std.specs.Prelude.{◌≡◌, ◌++◌, false, map, string_bytes, IfOk, OnOk};
ghost use Rattle.hex.specs.Hex.{encode_lower};
ghost use Rattle.sha2.specs.Sha256.{sha256};
ghost use Rattle.serde_json.specs.Written.{compact_text, comma_if};
ghost use Rattle.sarif_reports.specs.GitlabReport as said;
ghost use Rattle.sarif_share.specs.Sharing.{AreJoined};
ghost use Rattle.sarif_reports.specs.Internal.GitlabObjects.{object_of, joined_objects, before_part};
ghost use Rattle.sarif_reports.specs.GitlabParts.{rank_text};

use crate::quality::push_quality;
use crate::ranked::Ranked;
use sarif_share::{Sharing, share_parts};
use sha2::{Digest, Sha256};
use std::alloc::{AllocError, Global};
use std::thread::Threads;

/// For fewer results it is not worth starting another thread.
const LEAST_SHARED: usize = 32;

/// The fingerprint of a result that comes after this many equal ones.
fn fingerprint(alloc: Global, identity: &str, rank: u64) -> Result<String, AllocError>
    ensures { IfOk result
        (λ s. string_bytes s ≡ encode_lower (sha256 (identity.now ++ rank_text rank))) }
{
    let end = format!(in alloc; ",{rank}]")?;
    let mut hasher = Sha256::new();
    hasher.update(identity.as_bytes());
    hasher.update(end.as_bytes());
    hex::encode(alloc, hasher.finalize())
}

/// The fingerprint of a result.
fn mark_of(alloc: Global, one: &Ranked<'_>) -> Result<String, AllocError>
    ensures { IfOk result
        (λ s. string_bytes s ≡ said.mark_of one.now.finding.now one.now.rank) }
{
    if one.rank == 0 {
        return hex::encode(alloc, one.identity.first);
    }
    fingerprint(alloc, one.identity.text.as_str(), one.rank)
}

/// Adds the object of a result.
fn push_object(alloc: Global, text: &mut String, one: &Ranked<'_>) -> Result<(), AllocError>
    ensures { OnOk result
        (string_bytes text.new ≡ string_bytes text.old ++ compact_text (object_of one.now)) }
{
    let mark = mark_of(alloc, one)?;
    push_quality(alloc, text, one.finding, mark.as_str())?;
    Ok(())
}

/// Adds a comma, if something is before it.
fn push_comma(text: &mut String, later: bool) -> Result<(), AllocError>
    ensures { OnOk result (string_bytes text.new ≡ string_bytes text.old ++ comma_if later) }
{
    if later {
        text.push_str(",")?;
    }
    Ok(())
}

/// The objects of these results, in order, after a string.
fn objects_in_turn(alloc: Global, begin: &str, ranked: &[Ranked<'_>]) -> Result<String, AllocError>
    ensures { IfOk result
        (λ s. string_bytes s ≡ begin.now ++ joined_objects false (map object_of ranked.now)) }
{
    let mut text = String::from_str(alloc, begin)?;
    let mut later = false;
    for one in ranked {
        push_comma(&mut text, later)?;
        push_object(alloc, &mut text, one)?;
        later = true;
    }
    Ok(text)
}

/// What comes before the objects of the results from this place on.
fn begin_at(begin: &str, start: usize) -> &str
    ensures { result.now ≡ before_part begin.now start }
{
    if start == 0 { begin } else { "," }
}

/// Adds a string to an earlier one, which may be empty.
fn append(all: &mut String, text: String) -> Result<(), AllocError>
    ensures { OnOk result (string_bytes all.new ≡ string_bytes all.old ++ string_bytes text) }
{
    if all.is_empty() {
        *all = text;
    } else {
        all.push_str(text.as_str())?;
    }
    Ok(())
}

/// The concatenation of these strings.
fn join_texts(alloc: Global, texts: Vec<Result<String, AllocError>>) -> Result<String, AllocError>
    ensures { IfOk result (λ all. AreJoined string_bytes texts.items (string_bytes all)) }
{
    let mut all = String::new(alloc);
    for text in texts {
        append(&mut all, text?)?;
    }
    Ok(all)
}

/// The objects of these results after a string. At most `threads` threads make them, including this one.
pub(crate) fn objects_of<R: Threads + Sync>(
    rt: &R,
    alloc: Global,
    begin: &str,
    ranked: &[Ranked<'_>],
    threads: u32,
) -> Result<String, AllocError>
    ensures { IfOk result
        (λ s. string_bytes s ≡ begin.now ++ joined_objects false (map object_of ranked.now)) }
{
    if ranked.is_empty() {
        return String::from_str(alloc, begin);
    }
    let sharing = Sharing {
        rt,
        alloc,
        threads,
        least: LEAST_SHARED,
    };
    let part = move |start: usize, some: &[Ranked<'_>]| -> Result<String, AllocError>
        ensures { IfOk result (λ s. string_bytes s
            ≡ before_part begin.entry.now start ++ joined_objects false (map object_of some.now)) }
    { objects_in_turn(alloc, begin_at(begin, start), some) };
    let texts = share_parts(&sharing, ranked, &part)?;
    join_texts(alloc, texts)
}

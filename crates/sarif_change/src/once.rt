//! The parts of a key, each once however often it is in the key.
ghost use Rattle.std.specs.Prelude.{◌≡◌, ◌||◌, ℕ, List, Bool, true, IfOk, map};
ghost use Rattle.std.specs.List.{list_any};
ghost use Rattle.sarif_change.specs.Parts.{pieces_of};

use crate::parts::first_piece;
use std::alloc::{AllocError, Global};

/// Returns the parts of a key.
#[tactic(auto, using(sarif_diff::proofs::PiecesMore::none_left))]
fn list_parts<'k>(alloc: Global, key: &'k [u8]) -> Result<Vec<&'k [u8]>, AllocError>
    ensures { IfOk result (λ parts. map (λ part. part.now) parts.items ≡ pieces_of key.now) }
{
    let mut parts: Vec<&'k [u8]> = Vec::new(alloc);
    let mut rest = key;
    while !rest.is_empty() {
        let (part, after) = first_piece(rest);
        parts.push(part)?;
        rest = after;
    }
    Ok(parts)
}

/// Returns whether a part is the last of these.
#[tactic(auto, using(crate::proofs::OnceMore::last_is))]
fn is_last(parts: &[&[u8]], part: &[u8]) -> bool
    ensures { result ≡ true → (test : List ℕ → Bool)
        → (list_any test (map (λ one. one.now) parts.now) || test part.now)
        ≡ list_any test (map (λ one. one.now) parts.now) }
{
    match parts.last() {
        Some(last) => *last == part,
        None => false,
    }
}

/// Returns these parts without those that are equal to the one before.
#[tactic(auto, using(crate::proofs::OnceMore::skips, crate::proofs::OnceMore::adds))]
fn without_repeats<'k>(alloc: Global, parts: &[&'k [u8]]) -> Result<Vec<&'k [u8]>, AllocError>
    ensures { IfOk result (λ once. (test : List ℕ → Bool)
        → list_any test (map (λ part. part.now) once.items)
        ≡ list_any test (map (λ part. part.now) parts.now)) }
{
    let mut once: Vec<&'k [u8]> = Vec::new(alloc);
    for part in parts {
        if is_last(&once, *part) {
            continue;
        }
        once.push(*part)?;
    }
    Ok(once)
}

/// Returns the parts of a key, each once. Returns `AllocError` if memory runs out.
#[tactic(auto, using(crate::proofs::OnceMore::any_moved))]
pub(crate) fn parts_once<'k>(alloc: Global, key: &'k [u8]) -> Result<Vec<&'k [u8]>, AllocError>
    ensures { IfOk result (λ once. (test : List ℕ → Bool)
        → list_any test (map (λ part. part.now) once.items) ≡ list_any test (pieces_of key.now)) }
{
    let mut parts = list_parts(alloc, key)?;
    parts.sort_by(|first, second| first.cmp(second))?;
    let once = without_repeats(alloc, &parts)?;
    Ok(once)
}

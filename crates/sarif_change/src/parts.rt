//! The parts of paths, as keys.
ghost use Rattle.std.specs.Prelude.{◌≡◌, ◌≤◌, ◌<◌, ◌+◌, ◌++◌, ◌∷◌, [], ℕ, List, true, IfOk, OnOk, length, map, take};
ghost use Rattle.std.specs.List.{list_all};
ghost use Rattle.sarif_change.specs.Parts as said;
ghost use Rattle.sarif_change.specs.Internal.Keys.{joined, part_key, has_no_slash};

use sarif_diff::cut_piece;
use std::alloc::{AllocError, Global};

/// Returns a byte of a path as paths are compared.
fn plain(byte: u8) -> u8
    ensures { result ≡ said.plain byte }
{
    if byte == b'\\' || byte == b':' {
        b'/'
    } else {
        byte.to_ascii_lowercase()
    }
}

/// Returns the bytes of a path as paths are compared.
fn plain_copy(alloc: Global, path: &[u8]) -> Result<Vec<u8>, AllocError>
    ensures { IfOk result (λ copy. copy.items ≡ map said.plain path.now) }
{
    let mut copy = Vec::with_capacity(alloc, path.len())?;
    for byte in path {
        copy.push(plain(*byte))?;
    }
    Ok(copy)
}

/// Returns a path from its last byte to its first.
fn turn(alloc: Global, path: &[u8]) -> Result<Vec<u8>, AllocError>
    ensures { IfOk result (λ turned. turned.items ≡ said.turned path.now) }
{
    let mut turned = plain_copy(alloc, path)?;
    turned.reverse();
    Ok(turned)
}

/// Returns the first piece, and what follows its slash.
pub(crate) fn first_piece(path: &[u8]) -> (&[u8], &[u8])
    requires { 0 < length path.now }
    ensures cut { said.pieces_of path.now ≡ result.0.now ∷ said.pieces_of result.1.now }
    ensures less { length result.1.now + 1 ≤ length path.now }
{
    cut_piece(path, b'/')
}

/// Returns whether a piece is `..`.
fn is_up(piece: &[u8]) -> bool
    ensures { result ≡ said.is_up piece.now }
{
    piece == b"..".as_slice()
}

/// Returns whether a piece is empty or `.`.
fn is_here(piece: &[u8]) -> bool
    ensures { result ≡ said.is_here piece.now }
{
    piece.is_empty() || piece == b".".as_slice()
}

/// Adds a piece to a key, unless it is empty or `.`.
fn push_piece(key: &mut Vec<u8>, piece: &[u8]) -> Result<(), AllocError>
    ensures { OnOk result (key.new.items ≡ key.old.items ++ part_key piece.now) }
{
    if is_here(piece) {
        return Ok(());
    }
    key.extend_from_slice(piece)?;
    key.push(b'/')?;
    Ok(())
}

/// Returns the key of the parts of a turned path up to its first `..`.
#[tactic(auto, using(crate::proofs::PartsMore::goes, crate::proofs::PartsMore::ends_up, crate::proofs::PartsMore::at_end))]
fn key_of_turned(alloc: Global, turned: &[u8]) -> Result<Vec<u8>, AllocError>
    ensures { IfOk result
        (λ key. key.items ≡ joined (said.parts_after_up (said.pieces_of turned.now))) }
{
    let mut key: Vec<u8> = Vec::new(alloc);
    let mut rest = turned;
    while !rest.is_empty() {
        let (piece, after) = first_piece(rest);
        if is_up(piece) {
            return Ok(key);
        }
        push_piece(&mut key, piece)?;
        rest = after;
    }
    Ok(key)
}

/// Returns whether a turned path is that of a folder.
#[tactic(auto, using(crate::proofs::PartsMore::no_pieces))]
fn is_folder(turned: &[u8]) -> bool
    ensures { result ≡ said.is_folder (said.pieces_of turned.now) }
{
    if turned.is_empty() {
        return true;
    }
    let last = first_piece(turned).0;
    is_up(last) || is_here(last)
}

/// Returns the key of the parts of a path.
pub(crate) fn key_of(alloc: Global, path: &[u8]) -> Result<Vec<u8>, AllocError>
    ensures { IfOk result (λ key. key.items ≡ joined (said.parts_of path.now)) }
{
    let turned = turn(alloc, path)?;
    if is_folder(&turned) {
        return Ok(Vec::new(alloc));
    }
    key_of_turned(alloc, &turned)
}

/// Returns the first part of a key, with its slash.
#[tactic(auto, using(crate::proofs::JoinedMore::no_parts, crate::proofs::JoinedMore::first_joined, crate::proofs::JoinedMore::whole_joined))]
pub(crate) fn first_part(key: &[u8]) -> &[u8]
    ensures { (parts : List (List ℕ)) → list_all has_no_slash parts ≡ true → key.now ≡ joined parts
        → result.now ≡ joined (take 1 parts) }
{
    if key.is_empty() {
        return key;
    }
    let at = first_piece(key).0.len();
    if at < key.len() {
        return &key[..at + 1];
    }
    key
}

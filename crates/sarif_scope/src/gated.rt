//! The change that a gate is for.
ghost use Rattle.std.specs.Prelude.{◌≡◌, Ok, Err, IfOk};
ghost use Rattle.sarif_model.specs.Internal.Refusal.{IfFault};
ghost use Rattle.sarif_scope.specs.Reading as said;

use crate::files::count_files;
use sarif_change::{Changed, Scope};
use sarif_diff::{Change, DiffFault, read_sections};
use sarif_model::{Refusal, Sequence, Text};
use std::alloc::{AllocError, Global};
use std::hash::BuildHasher;

/// A change, and how a gate compares results with it.
#[derive(Drop)]
pub struct GatedChange {
    /// Its files and their changed lines.
    pub changed: Changed,
    /// How many files it changes.
    pub files: u64,
    /// How many lines its hunks add.
    pub lines: u64,
    /// What of a changed file is treated as changed.
    pub scope: Scope,
    /// What URIs may begin with (`--root`).
    pub roots: Sequence<Text>,
}

/// The change of these sections.
fn gate_change<S: BuildHasher + Copy>(
    alloc: Global,
    hasher: S,
    change: Change,
    scope: Scope,
    roots: Sequence<Text>,
) -> Result<GatedChange, AllocError>
    ensures { IfOk result (λ made. made ≡ said.gated scope roots change) }
{
    let Change { sections, added } = change;
    let files = count_files(alloc, hasher, sections.as_slice())?;
    let changed = Changed::new(alloc, hasher, sections)?;
    Ok(GatedChange {
        changed,
        files,
        lines: added as u64,
        scope,
        roots,
    })
}

/// Reads a diff. The gate compares results with it in this scope. URIs may begin with one of `roots`. Tables of names
/// hash with `hasher`, on which nothing depends. Returns the first error of the diff, or `OutOfMemory`.
pub fn read_change<S: BuildHasher + Copy>(
    alloc: Global,
    hasher: S,
    bytes: &[u8],
    scope: Scope,
    roots: Sequence<Text>,
) -> Result<GatedChange, Refusal<DiffFault>>
    ensures ok { IfOk result (λ made. said.change_of scope roots bytes.now ≡ Ok made) }
    ensures err { IfFault result (λ fault. said.change_of scope roots bytes.now ≡ Err fault) }
{
    let change = read_sections(alloc, bytes)?;
    let gated = gate_change(alloc, hasher, change, scope, roots)?;
    Ok(gated)
}

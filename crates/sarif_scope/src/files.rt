//! How many files a diff changes.
ghost use Rattle.std.specs.Prelude.{◌≡◌, ◌+◌, ◌<◌, ◌≤◌, ◌^◌, ◌++◌, ◌∷◌, [], true, false, List, IfOk, OnOk, if◌then◌else◌};
ghost use Rattle.sarif_diff.specs.declared.section.Section.{Section as OneSection};
ghost use Rattle.sarif_scope.specs.Files as said;
ghost use Rattle.sarif_scope.specs.Internal.NamesMet.{AreMet};

use indexmap::IndexMap;
use sarif_diff::Section;
use std::alloc::{AllocError, Global};
use std::hash::BuildHasher;

/// Notes the name of a section. Returns whether it is a new one.
fn note<'a, S: BuildHasher + Copy>(
    names: &mut IndexMap<&'a [u8], bool, S>,
    section: &'a Section,
) -> Result<bool, AllocError>
    ensures met { OnOk result ((before : List OneSection) → AreMet before names.old
        → AreMet (before ++ section.now ∷ []) names.new) }
    ensures new { IfOk result (λ is_new. (before : List OneSection) → AreMet before names.old
        → is_new ≡ (if said.is_named before section.now.name then false else true)) }
{
    let name = section.name.as_slice();
    if names.get(&name).is_some() {
        return Ok(false);
    }
    names.insert(name, true)?;
    Ok(true)
}

/// Returns a number, or one more.
fn one_more_if(number: u64, more: bool) -> u64
    requires { number + 1 < 2 ^ 64 }
    ensures is { result ≡ number + (if more then 1 else 0) }
    ensures most { result ≤ number + 1 }
{
    if more { number + 1 } else { number }
}

/// Returns how many files these sections change: each name once. The table of names hashes with `hasher`, on which
/// nothing depends. Returns `AllocError` if memory runs out.
pub(crate) fn count_files<S: BuildHasher + Copy>(
    alloc: Global,
    hasher: S,
    sections: &[Section],
) -> Result<u64, AllocError>
    ensures { IfOk result (λ count. count ≡ said.files_of sections.now) }
{
    let mut names = IndexMap::with_hasher(alloc, hasher);
    let mut count = 0;
    for section in sections {
        let is_new = note(&mut names, section)?;
        count = one_more_if(count, is_new);
    }
    Ok(count)
}

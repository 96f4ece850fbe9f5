//! Sections of several commits.
ghost use Rattle.std.specs.Prelude.{◌≡◌, ◌||◌, ◌++◌, ◌∷◌, [], ℕ, List, length, Some, cond, is_some, map, IfOk, OnOk};
ghost use Rattle.std.specs.Borrow.{Bor};
ghost use Rattle.std.specs.HashMap.{get};
ghost use Rattle.std.specs.List.{list_any};
ghost use Rattle.sarif_diff.specs.declared.section.Section.{Section as OneSection};
ghost use Rattle.sarif_change.specs.Joined.{sections_joined, is_shared, names_of};
ghost use Rattle.sarif_change.specs.Internal.NamesSeen.{IsTableOf, same_bytes, shared_names, with_whole};

use indexmap::IndexMap;
use sarif_diff::{Name, Section};
use sarif_model::Sequence;
use std::alloc::{AllocError, Global};
use std::hash::BuildHasher;

/// Notes that one more section has this name.
fn note_name<'a, S: BuildHasher + Copy>(
    names: &mut IndexMap<&'a [u8], bool, S>,
    name: &'a [u8],
) -> Result<(), AllocError>
    ensures { OnOk result ((q : Bor (List ℕ)) → get same_bytes names.new q
        ≡ cond (same_bytes name.entry q) (Some (is_some (get same_bytes names.old name.entry)))
        (get same_bytes names.old q)) }
{
    let is_more = names.get(&name).is_some();
    names.insert(name, is_more)?;
    Ok(())
}

/// Notes the names of a section, each of them once.
fn note_names<'a, S: BuildHasher + Copy>(
    names: &mut IndexMap<&'a [u8], bool, S>,
    section: &'a Section,
) -> Result<(), AllocError>
    ensures { OnOk result ((before : List OneSection) → IsTableOf before names.old
        → IsTableOf (before ++ section.now ∷ []) names.new) }
{
    let name = section.name.as_slice();
    note_name(names, name)?;
    if let Some(old) = &section.old {
        if old.as_slice() != name {
            note_name(names, old.as_slice())?;
        }
    }
    Ok(())
}

/// The names of these sections, and of each whether several have it.
fn names_seen<'a, S: BuildHasher + Copy>(
    alloc: Global,
    hasher: S,
    sections: &'a [Section],
) -> Result<IndexMap<&'a [u8], bool, S>, AllocError>
    ensures { IfOk result (IsTableOf sections.now) }
{
    let mut names = IndexMap::with_hasher(alloc, hasher);
    for section in sections {
        note_names(&mut names, section)?;
    }
    Ok(names)
}

/// Whether several sections have this name.
fn is_noted<S: BuildHasher + Copy>(names: &IndexMap<&[u8], bool, S>, name: &Name) -> bool
    ensures { (sections : List OneSection) → IsTableOf sections names.now
        → result ≡ is_shared sections name.now }
{
    match names.get(&name.as_slice()) {
        Some(is_more) => *is_more,
        None => false,
    }
}

/// Whether several sections have a name of this one.
fn shares_name<S: BuildHasher + Copy>(names: &IndexMap<&[u8], bool, S>, section: &Section) -> bool
    ensures { (sections : List OneSection) → IsTableOf sections names.now
        → result ≡ list_any (is_shared sections) (names_of section.now) }
{
    if is_noted(names, &section.name) {
        return true;
    }
    match &section.old {
        Some(old) => is_noted(names, old),
        None => false,
    }
}

/// Whether several sections have a name of each of these.
fn list_shared<S: BuildHasher + Copy>(
    alloc: Global,
    hasher: S,
    sections: &[Section],
) -> Result<Vec<bool>, AllocError>
    ensures { IfOk result
        (λ shared. shared.items ≡ shared_names sections.now sections.now) }
{
    let names = names_seen(alloc, hasher, sections)?;
    let mut shared = Vec::with_capacity(alloc, sections.len())?;
    for section in sections {
        shared.push(shares_name(&names, section))?;
    }
    Ok(shared)
}

/// The section, changed whole also if `whole` says so.
fn with_mark(section: Section, whole: bool) -> Section
    ensures { result ≡ record section { whole = section.whole || whole } }
{
    Section {
        whole: section.whole || whole,
        ..section
    }
}

/// The sections, each changed completely if it was or if its mark is set.
fn mark_whole(
    alloc: Global,
    sections: Sequence<Section>,
    whole: &[bool],
) -> Result<Sequence<Section>, AllocError>
    requires { length whole.now ≡ length sections }
    ensures { IfOk result (λ marked. marked ≡ with_whole sections whole.now) }
{
    let mut marked = Sequence::new(alloc);
    let mut number = 0;
    for section in sections.into_vec() {
        marked.push(with_mark(section, whole[number]))?;
        number += 1;
    }
    Ok(marked)
}

/// The sections, in which the files of those are changed whole that have a name together with another: their line
/// numbers are those of several commits. The table of names hashes with `hasher`, on which nothing depends. Returns
/// `AllocError` if memory runs out.
pub(crate) fn join_sections<S: BuildHasher + Copy>(
    alloc: Global,
    hasher: S,
    sections: Sequence<Section>,
) -> Result<Sequence<Section>, AllocError>
    ensures { IfOk result (λ all. all ≡ sections_joined sections) }
{
    let shared = list_shared(alloc, hasher, sections.as_slice())?;
    let all = mark_whole(alloc, sections, &shared)?;
    Ok(all)
}

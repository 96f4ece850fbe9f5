//! The files of a change, by what their paths end with.
ghost use Rattle.std.specs.Prelude.{◌≡◌, ◌≤◌, ◌||◌, ◌++◌, ◌∷◌, [], ℕ, List, true, Option, IfOk, OnOk, take};
ghost use Rattle.std.specs.List.{list_any, list_all};
ghost use Rattle.sarif_diff.specs.declared.section.Section.{Section as OneSection};
ghost use Rattle.sarif_diff.specs.declared.section.Span.{Span as OneSpan};
ghost use Rattle.sarif_change.specs.Meeting.{changes};
ghost use Rattle.sarif_change.specs.Parts as parts;
ghost use Rattle.sarif_change.specs.Internal.Files.{changed_at, found_at};
ghost use Rattle.sarif_change.specs.Internal.Index.{HaveFiles, HaveLinks, tree_files};
ghost use Rattle.sarif_change.specs.Internal.Keys.{joined};

use crate::file::ChangedFile;
use crate::lines::ChangedLines;
use crate::parts::{first_part, key_of};
use crate::tree::Tree;
use sarif_diff::Section;
use std::alloc::{AllocError, Global};

/// Returns the changed lines of a section.
#[tactic(auto, using(crate::proofs::IndexMore::changes_is))]
fn lines_of(alloc: Global, section: &Section) -> Result<ChangedLines, AllocError>
    ensures { IfOk result (λ made. (lines : Option OneSpan)
        → changed_at lines made ≡ changes lines section.now) }
{
    let spans = Vec::from_slice(alloc, section.spans.as_slice())?;
    ChangedLines::of(alloc, section.whole, spans)
}

/// Adds the file of a section.
#[tactic(auto, using(crate::proofs::IndexMore::file_added))]
fn push_file(
    alloc: Global,
    files: &mut Vec<ChangedFile>,
    section: &Section,
) -> Result<(), AllocError>
    ensures { OnOk result ((sections : List OneSection) → HaveFiles files.old.items sections
        → HaveFiles files.new.items (sections ++ section.now ∷ [])) }
{
    let key = key_of(alloc, section.name.as_slice())?;
    let changed = lines_of(alloc, section)?;
    files.push(ChangedFile { key, changed })?;
    Ok(())
}

/// Returns the files of sections.
fn files_of(alloc: Global, sections: &[Section]) -> Result<Vec<ChangedFile>, AllocError>
    ensures { IfOk result (λ files. HaveFiles files.items sections.now) }
{
    let mut files = Vec::new(alloc);
    for section in sections {
        push_file(alloc, &mut files, section)?;
    }
    Ok(files)
}

/// Adds the last part of a section's file, if it is a symbolic link with parts.
#[tactic(auto, using(crate::proofs::IndexMore::link_added, crate::proofs::IndexMore::no_link, crate::proofs::IndexMore::no_parts))]
fn push_link(
    alloc: Global,
    links: &mut Vec<ChangedFile>,
    section: &Section,
) -> Result<(), AllocError>
    ensures { OnOk result ((sections : List OneSection) → HaveLinks links.old.items sections
        → HaveLinks links.new.items (sections ++ section.now ∷ [])) }
{
    if !section.link {
        return Ok(());
    }
    let key = key_of(alloc, section.name.as_slice())?;
    if key.is_empty() {
        return Ok(());
    }
    let key = Vec::from_slice(alloc, first_part(&key))?;
    let changed = lines_of(alloc, section)?;
    links.push(ChangedFile { key, changed })?;
    Ok(())
}

/// Returns the symbolic links among sections.
fn links_of(alloc: Global, sections: &[Section]) -> Result<Vec<ChangedFile>, AllocError>
    ensures { IfOk result (λ links. HaveLinks links.items sections.now) }
{
    let mut links = Vec::new(alloc);
    for section in sections {
        push_link(alloc, &mut links, section)?;
    }
    Ok(links)
}

/// Returns the tree of files, which are put in the order of their keys.
#[tactic(auto, using(crate::proofs::IndexMore::tree_any))]
fn tree_of(alloc: Global, files: Vec<ChangedFile>) -> Result<Option<Tree>, AllocError>
    ensures { IfOk result (λ tree. (key : List ℕ) (lines : Option OneSpan)
        → list_any (found_at key lines) (tree_files tree)
        ≡ list_any (found_at key lines) files.items) }
{
    let mut files = files;
    files.sort_by(|first, second| first.key.cmp(&second.key))?;
    let tree = Tree::of(alloc, files)?;
    Ok(tree)
}

/// Returns the tree of the files of sections.
pub(crate) fn file_tree(alloc: Global, sections: &[Section]) -> Result<Option<Tree>, AllocError>
    ensures { IfOk result (λ tree. HaveFiles (tree_files tree) sections.now) }
{
    tree_of(alloc, files_of(alloc, sections)?)
}

/// Returns the tree of the symbolic links among sections.
pub(crate) fn link_tree(alloc: Global, sections: &[Section]) -> Result<Option<Tree>, AllocError>
    ensures { IfOk result (λ tree. HaveLinks (tree_files tree) sections.now) }
{
    tree_of(alloc, links_of(alloc, sections)?)
}

//! Whether the places of a result meet a change.
ghost use Rattle.std.specs.Prelude.{◌≡◌, ◌||◌, ℕ, List, true, false, Option, IfOk, OnOk, map};
ghost use Rattle.std.specs.List.{list_any, list_all, Contains};
ghost use Rattle.sarif_diff.specs.declared.section.Span.{Span as OneSpan};
ghost use Rattle.sarif_change.specs.Joined.{sections_joined};
ghost use Rattle.sarif_change.specs.Meeting as meeting;
ghost use Rattle.sarif_change.specs.Outside as said;
ghost use Rattle.sarif_change.specs.Parts.{pieces_of};
ghost use Rattle.sarif_change.specs.Uri.{Path, readings_of};
ghost use Rattle.sarif_change.specs.Internal.Files.{any_changed, found_at};
ghost use Rattle.sarif_change.specs.Internal.Index.{tree_files, sought_parts, is_found, is_linked};
ghost use Rattle.sarif_change.specs.Internal.Keys.{joined, has_no_slash};
ghost use Rattle.sarif_change.specs.Internal.Sought.{seen, keyed, four_times};
ghost use Rattle.sarif_change.specs.declared.spots.Spot.{Spot as OneSpot};

use crate::found::is_any_changed;
use crate::index::{file_tree, link_tree};
use crate::joining::join_sections;
use crate::lines::ChangedLines;
use crate::once::parts_once;
use crate::parts::first_part;
use crate::spots::{Scope, Spot, Spots};
use crate::tree::Tree;
use crate::uri::{SoughtPath, is_plain, paths_of, plain_path};
use sarif_diff::{Section, Span};
use sarif_model::{Region, Sequence, Text};
use std::alloc::{AllocError, Global};
use std::hash::BuildHasher;
use std::marker::Model;

/// What a change changes, so that places are compared with it in little time. Contracts see its sections, in which files
/// of several commits are changed whole.
#[derive(Drop)]
pub struct Changed {
    sections: Sequence<Section>,
    /// The files of the sections.
    files: Option<Tree>,
    /// The files that are symbolic links, each by the last part of its path only.
    links: Option<Tree>,
}

impl Model for Changed {
    ghost use Rattle.std.specs.Prelude.{List};
    ghost use Rattle.sarif_diff.specs.declared.section.Section.{Section};

    ghost Value = { List Section };

    ghost view = { λ c. c.sections };

    ghost use Rattle.sarif_change.specs.Internal.Index.{IsIndex};

    ghost invariant = { λ c. IsIndex c.files c.links c.sections };
}

/// Adds the changed lines of the files in a tree that may be the one with this key.
#[tactic(auto, using(crate::proofs::AnyChanged::none_added))]
fn find_in<'t>(
    tree: &'t Option<Tree>,
    found: &mut Vec<&'t ChangedLines>,
    key: &[u8],
) -> Result<(), AllocError>
    ensures { OnOk result ((lines : Option OneSpan) → any_changed lines found.new.items
        ≡ (any_changed lines found.old.items
        || list_any (found_at key.now lines) (tree_files tree.now))) }
{
    match tree {
        Some(tree) => {
            tree.find(found, key)?;
            Ok(())
        }
        None => Ok(()),
    }
}

/// Returns the key that is looked for: that of the last part if the path is absolute.
fn sought_key(path: &SoughtPath) -> &[u8]
    ensures { (parts : List (List ℕ)) → list_all has_no_slash parts ≡ true
        → path.now.key.items ≡ joined parts
        → result.now ≡ joined (sought_parts (path.now.absolute, parts)) }
{
    if path.absolute {
        return first_part(path.key.as_slice());
    }
    path.key.as_slice()
}

/// Adds the changed lines of the symbolic links of this name.
fn find_link<'t>(
    alloc: Global,
    links: &'t Option<Tree>,
    found: &mut Vec<&'t ChangedLines>,
    part: &[u8],
) -> Result<(), AllocError>
    ensures { OnOk result ((lines : Option OneSpan) → any_changed lines found.new.items
        ≡ (any_changed lines found.old.items || is_linked links.now lines part.now)) }
{
    let mut key = Vec::from_slice(alloc, part)?;
    key.push(b'/')?;
    find_in(links, found, key.as_slice())?;
    Ok(())
}

/// Adds the changed lines of the symbolic links that have the name of one of these parts.
#[tactic(auto, using(crate::proofs::AnyChanged::part_after))]
fn find_each_link<'t>(
    alloc: Global,
    links: &'t Option<Tree>,
    found: &mut Vec<&'t ChangedLines>,
    parts: &[&[u8]],
) -> Result<(), AllocError>
    ensures { OnOk result ((lines : Option OneSpan) → any_changed lines found.new.items
        ≡ (any_changed lines found.old.items
        || list_any (is_linked links.now lines) (map (λ part. part.now) parts.now))) }
{
    for part in parts {
        find_link(alloc, links, found, *part)?;
    }
    Ok(())
}

/// Adds the changed lines of the symbolic links that have the name of a part of this key. A name that the key has often
/// is looked up once.
#[tactic(auto, using(crate::proofs::AnyChanged::none_linked))]
fn find_links<'t>(
    alloc: Global,
    links: &'t Option<Tree>,
    found: &mut Vec<&'t ChangedLines>,
    key: &[u8],
) -> Result<(), AllocError>
    ensures { OnOk result ((lines : Option OneSpan) → any_changed lines found.new.items
        ≡ (any_changed lines found.old.items
        || list_any (is_linked links.now lines) (pieces_of key.now))) }
{
    if links.is_none() {
        return Ok(());
    }
    let parts = parts_once(alloc, key)?;
    find_each_link(alloc, links, found, &parts)?;
    Ok(())
}

/// Returns the lines of a region, if its numbers are those of lines.
fn lines_of(region: Region) -> Option<Span>
    ensures { result ≡ said.lines_of region }
{
    let last = region.end_line.unwrap_or(region.start_line);
    if 1 <= region.start_line && region.start_line <= last {
        return Some(Span {
            first: u64::from(region.start_line),
            last: u64::from(last),
        });
    }
    None
}

/// Returns the lines that count: none in the scope of files.
pub(crate) fn lines_in(scope: Scope, region: Option<Region>) -> Option<Span>
    ensures { result ≡ said.lines_in scope region }
{
    match (scope, region) {
        (Scope::Lines, Some(region)) => lines_of(region),
        _ => None,
    }
}

impl Changed {
    /// Returns what these sections change. If several sections have one name, as that of their file or before a
    /// rename, the diff has several commits, and their files are changed whole: the line numbers of one commit aren't
    /// those of the next. The table of names hashes with `hasher`, on which nothing depends. Returns `AllocError` if
    /// memory runs out.
    pub fn new<S: BuildHasher + Copy>(
        alloc: Global,
        hasher: S,
        sections: Sequence<Section>,
    ) -> Result<Changed, AllocError>
        ensures { IfOk result (λ changed. changed ≡ sections_joined sections) }
    {
        let sections = join_sections(alloc, hasher, sections)?;
        let files = file_tree(alloc, sections.as_slice())?;
        let links = link_tree(alloc, sections.as_slice())?;
        Ok(Changed {
            sections,
            files,
            links,
        })
    }

    /// Adds the changed lines of the files that a path may be.
    fn find_path<'c>(
        &'c self,
        alloc: Global,
        found: &mut Vec<&'c ChangedLines>,
        path: &SoughtPath,
    ) -> Result<(), AllocError>
        ensures { OnOk result ((lines : Option OneSpan) (parts : List (List ℕ))
            → list_all has_no_slash parts ≡ true → path.now.key.items ≡ joined parts
            → any_changed lines found.new.items ≡ (any_changed lines found.old.items
            || is_found self.now lines (path.now.absolute, parts))) }
    {
        find_in(&self.files, found, sought_key(path))?;
        find_links(alloc, &self.links, found, path.key.as_slice())?;
        Ok(())
    }

    /// Adds the changed lines of the files that one of these paths may be.
    #[tactic(auto, using(crate::proofs::AnyChanged::no_paths))]
    fn find_paths<'c>(
        &'c self,
        alloc: Global,
        found: &mut Vec<&'c ChangedLines>,
        paths: &[SoughtPath],
    ) -> Result<(), AllocError>
        ensures { OnOk result ((lines : Option OneSpan) (sought : List Path)
            → list_all (λ path. list_all has_no_slash path.1) sought ≡ true
            → map seen paths.now ≡ map keyed sought
            → any_changed lines found.new.items ≡ (any_changed lines found.old.items
            || list_any (is_found self.now lines) sought)) }
    {
        match paths {
            [] => Ok(()),
            [first, rest @ ..] => {
                self.find_path(alloc, found, first)?;
                self.find_paths(alloc, found, rest)?;
                Ok(())
            }
        }
    }
}

impl Changed {
    /// Returns the changed lines of the files that a URI without `%`, `?` and `#` may be, which represents one path.
    #[tactic(auto, using(crate::proofs::FoundMore::all_found, crate::proofs::PlainUri::plain_clean, crate::proofs::PlainUri::plain_found))]
    fn look_up_plain<'c>(
        &'c self,
        alloc: Global,
        roots: &[Text],
        uri: &[u8],
    ) -> Result<Vec<&'c ChangedLines>, AllocError>
        requires { readings_of uri.now ≡ four_times uri.now }
        ensures { IfOk result (λ found. (lines : Option OneSpan)
            → any_changed lines found.items ≡ meeting.meets self.now roots.now uri.now lines) }
    {
        let path = plain_path(alloc, roots, uri)?;
        let mut found = Vec::new(alloc);
        self.find_path(alloc, &mut found, &path)?;
        Ok(found)
    }

    /// Returns the changed lines of the files that this URI may be. Most URIs represent one path: then only that is looked
    /// up. Returns `AllocError` if memory runs out.
    #[tactic(auto, using(crate::proofs::FoundMore::all_found, crate::proofs::PathsMore::paths_clean))]
    pub(crate) fn look_up<'c>(
        &'c self,
        alloc: Global,
        roots: &[Text],
        uri: &str,
    ) -> Result<Vec<&'c ChangedLines>, AllocError>
        ensures { IfOk result (λ found. (lines : Option OneSpan)
            → any_changed lines found.items ≡ meeting.meets self.now roots.now uri.now lines) }
    {
        let uri = uri.as_bytes();
        if is_plain(uri) {
            return self.look_up_plain(alloc, roots, uri);
        }
        let paths = paths_of(alloc, roots, uri)?;
        let mut found = Vec::new(alloc);
        self.find_paths(alloc, &mut found, paths.as_slice())?;
        Ok(found)
    }

    /// Returns whether a place with this URI and these lines meets the change. Returns `AllocError` if memory runs out.
    pub(crate) fn meets(
        &self,
        alloc: Global,
        roots: &[Text],
        uri: &str,
        lines: Option<Span>,
    ) -> Result<bool, AllocError>
        ensures { IfOk result (λ met. met ≡ meeting.meets self.now roots.now uri.now lines) }
    {
        let found = self.look_up(alloc, roots, uri)?;
        Ok(is_any_changed(&found, lines))
    }

    /// Returns whether a place meets the change, if it has a path.
    fn meeting(
        &self,
        alloc: Global,
        roots: &[Text],
        scope: Scope,
        spot: &Spot,
    ) -> Result<Option<bool>, AllocError>
        ensures { IfOk result (λ met. met ≡ said.meeting self.now roots.now scope spot.now) }
    {
        match &spot.uri {
            None => Ok(None),
            Some(uri) => {
                let met = self.meets(alloc, roots, uri.as_str(), lines_in(scope, spot.region))?;
                Ok(Some(met))
            }
        }
    }

    /// Returns whether there are places, and each has a path and doesn't meet the change.
    #[tactic(auto, using(crate::proofs::OutsideMore::none_missed, crate::proofs::OutsideMore::all_missed, crate::proofs::OutsideMore::not_missed))]
    fn are_missed(
        &self,
        alloc: Global,
        roots: &[Text],
        scope: Scope,
        spots: &[Spot],
    ) -> Result<bool, AllocError>
        ensures { IfOk result
            (λ missed. missed ≡ said.are_missed self.now roots.now scope spots.now) }
    {
        if spots.is_empty() {
            return Ok(false);
        }
        for spot in spots {
            if self.meeting(alloc, roots, scope, spot)?.unwrap_or(true) {
                return Ok(false);
            }
        }
        Ok(true)
    }

    /// Returns whether one of these places has a path and meets the change.
    fn any_met(
        &self,
        alloc: Global,
        roots: &[Text],
        scope: Scope,
        spots: &[Spot],
    ) -> Result<bool, AllocError>
        ensures { IfOk result
            (λ met. met ≡ list_any (said.is_met self.now roots.now scope) spots.now) }
    {
        for spot in spots {
            if self.meeting(alloc, roots, scope, spot)?.unwrap_or(false) {
                return Ok(true);
            }
        }
        Ok(false)
    }

    /// Returns whether a result with these places is outside of the change: it has locations, each has a path and
    /// doesn't meet the change, no other place meets it, and none is kept elsewhere. `roots` are what URIs may begin
    /// with (`--root`). No result is outside that has a location in the change. Returns `AllocError` if memory runs
    /// out.
    #[tactic(auto, using(crate::proofs::OutsideMore::never_outside, crate::proofs::OutsideMore::kept_elsewhere, crate::proofs::OutsideMore::not_each_missed, crate::proofs::OutsideMore::others_met))]
    pub fn is_outside(
        &self,
        alloc: Global,
        roots: &[Text],
        scope: Scope,
        spots: &Spots,
    ) -> Result<bool, AllocError>
        ensures is { IfOk result
            (λ outside. outside ≡ said.is_outside self.now roots.now scope spots.now) }
        ensures no_false_pass { IfOk result (λ outside. (spot : OneSpot)
            → Contains spots.now.locations spot
            → said.IsInChange self.now roots.now scope spot → outside ≡ false) }
    {
        if spots.elsewhere {
            return Ok(false);
        }
        if !self.are_missed(alloc, roots, scope, spots.locations.as_slice())? {
            return Ok(false);
        }
        let met = self.any_met(alloc, roots, scope, spots.others.as_slice())?;
        Ok(!met)
    }
}

//! The files of a change by their keys: a tree in which a key is found without asking each file.
ghost use Rattle.std.specs.Prelude.{◌≡◌, ◌≤◌, ◌++◌, [], true, length, Option, IfOk, IfSome, IfNone, OnOk, ◌||◌};
ghost use Rattle.std.specs.List.{list_any, list_all};
ghost use Rattle.sarif_diff.specs.declared.section.Span.{Span as OneSpan};
ghost use Rattle.sarif_change.specs.Internal.Keys as keys;
ghost use Rattle.sarif_change.specs.Internal.Files.{any_changed, changed_at, found_at};
ghost use Rattle.sarif_change.specs.Internal.NextBytes.{is_next};

use crate::file::{ChangedFile, SharedPart};
use crate::found::push_if;
use crate::keys::{alike, beginning_of, opens};
use crate::lines::ChangedLines;
use crate::next::NextBytes;
use std::alloc::{AllocError, Global};
use std::marker::Model;

/// The files of a change, at least one. Contracts see their list.
#[cycle(tree)]
#[derive(Drop)]
pub struct Tree {
    node: Node,
}

#[cycle(tree)]
#[derive(Drop)]
enum Node {
    /// One file.
    One(ChangedFile),
    /// More than one, in two trees.
    Two(Box<Tree>, SharedPart, Box<Tree>),
}

impl Model for Tree {
    ghost use Rattle.std.specs.Prelude.{List, length};
    ghost use Rattle.sarif_change.specs.declared.file.ChangedFile.{ChangedFile};

    ghost Value = { List ChangedFile };

    ghost use Rattle.sarif_change.specs.Internal.Trees.{files_in, IsRight};

    ghost view = { λ a. files_in a.node };

    ghost invariant = { λ a. IsRight a.node };

    ghost size = { length };

    ghost use Rattle.sarif_change.specs.Internal.TreeFalls.{depth_le-length-files};

    ghost size_decreases = { λ a h. depth_le-length-files a.node h };
}

impl Tree {
    /// Returns what all keys begin with.
    #[tactic(auto, using(crate::proofs::TreeMore::one_opens, crate::proofs::KeysMore::opens_self))]
    pub(crate) fn beginning(&self) -> &[u8]
        ensures { list_all (λ file. keys.opens file.key.items result.now) self.now ≡ true }
    {
        match &self.node {
            Node::One(file) => &file.key,
            Node::Two(_, shared, _) => &shared.beginning,
        }
    }

    /// Returns the changed lines of all files.
    pub(crate) fn changed(&self) -> &ChangedLines
        ensures { (lines : Option OneSpan)
            → changed_at lines result.now
            ≡ list_any (λ file. changed_at lines file.changed) self.now }
    {
        match &self.node {
            Node::One(file) => &file.changed,
            Node::Two(_, shared, _) => &shared.changed,
        }
    }

    /// Returns what follows the first bytes of the keys.
    #[tactic(auto, using(crate::proofs::NextMore::one_next))]
    fn next_bytes(&self, at: usize) -> NextBytes
        ensures { list_all (λ file. is_next result at file.key.items) self.now ≡ true }
    {
        match &self.node {
            Node::One(file) => NextBytes::of(&file.key, at),
            Node::Two(left, _, right) => left.next_bytes(at).both(right.next_bytes(at)),
        }
    }

    /// Returns the tree of all files of two. Returns `AllocError` if memory runs out.
    fn join(alloc: Global, left: Tree, right: Tree) -> Result<Tree, AllocError>
        requires left { 1 ≤ length left }
        requires right { 1 ≤ length right }
        ensures { IfOk result (λ tree. tree ≡ left ++ right) }
    {
        let beginning = Vec::from_slice(alloc, beginning_of(left.beginning(), right.beginning()))?;
        let at = beginning.len();
        let next = left.next_bytes(at).both(right.next_bytes(at));
        let changed = ChangedLines::both(alloc, left.changed(), right.changed())?;
        let left = Box::new(alloc, left)?;
        let right = Box::new(alloc, right)?;
        let shared = SharedPart {
            beginning,
            next,
            changed,
        };
        Ok(Tree {
            node: Node::Two(left, shared, right),
        })
    }

    /// Returns the tree of these files. Returns `AllocError` if memory runs out.
    pub(crate) fn of(alloc: Global, files: Vec<ChangedFile>) -> Result<Option<Tree>, AllocError>
        ensures none { IfOk result (λ tree. IfNone tree (files.items ≡ [])) }
        ensures some { IfOk result (λ tree. IfSome tree (λ t. t ≡ files.items)) }
        ensures filled { IfOk result (λ tree. IfSome tree (λ t. 1 ≤ length t)) }
    {
        let mut files = files;
        if files.len() <= 1 {
            return match files.pop() {
                None => Ok(None),
                Some(file) => Ok(Some(Tree {
                    node: Node::One(file),
                })),
            };
        }
        let after = files.split_off(files.len() / 2)?;
        let left = Tree::of(alloc, files)?;
        let right = Tree::of(alloc, after)?;
        match (left, right) {
            (Some(left), Some(right)) => Ok(Some(Tree::join(alloc, left, right)?)),
            (left, None) => Ok(left),
            (None, right) => Ok(right),
        }
    }

    /// Adds the changed lines of the files that may be the one with this key. Returns `AllocError` if memory runs out.
    #[tactic(auto, using(crate::proofs::AnyChanged::same_file, crate::proofs::AnyChanged::both_sides))]
    pub(crate) fn find<'t>(
        &'t self,
        found: &mut Vec<&'t ChangedLines>,
        key: &[u8],
    ) -> Result<(), AllocError>
        ensures { OnOk result ((lines : Option OneSpan) → any_changed lines found.new.items
            ≡ (any_changed lines found.old.items || list_any (found_at key.now lines) self.now)) }
    {
        match &self.node {
            Node::One(file) => {
                push_if(found, alike(&file.key, key), &file.changed)?;
                Ok(())
            }
            Node::Two(left, shared, right) => {
                if opens(&shared.beginning, key) {
                    push_if(found, true, &shared.changed)?;
                    return Ok(());
                }
                if shared.rules_out(key) {
                    return Ok(());
                }
                left.find(found, key)?;
                right.find(found, key)?;
                Ok(())
            }
        }
    }
}

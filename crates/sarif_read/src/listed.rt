//! The results of a run, as they are in an index.
ghost use Rattle.std.specs.Prelude.{◌≡◌, ◌++◌, ◌∷◌, [], IfOk, OnOk, length};
ghost use Rattle.sarif_read.specs.Unmarked.{unmarked};

use json_parts::Node;
use std::alloc::{AllocError, Global};

/// The value at `results` of a run (SARIF 2.1.0, run object, "results property").
#[derive(Drop)]
pub(crate) enum Listed<'t, 'a> {
    /// Nothing, or what stripping leaves out.
    Missing,
    /// `null`.
    Null,
    /// An array, with the places of its elements.
    Array(Vec<Node<'t, 'a>>),
}

/// Adds a node, unless it is marked.
fn push_unless<'t, 'a>(
    kept: &mut Vec<Node<'t, 'a>>,
    is_marked: bool,
    node: Node<'t, 'a>,
) -> Result<(), AllocError>
    ensures { OnOk result
        (kept.new.items ≡ kept.old.items ++ unmarked (is_marked ∷ []) (node.entry ∷ [])) }
{
    if !is_marked {
        kept.push(node)?;
    }
    Ok(())
}

/// The nodes that aren't marked.
fn keep_unmarked<'t, 'a>(
    alloc: Global,
    nodes: Vec<Node<'t, 'a>>,
    marked: &[bool],
) -> Result<Vec<Node<'t, 'a>>, AllocError>
    requires { length marked.now ≡ length nodes.items }
    ensures { IfOk result (λ kept. kept.items ≡ unmarked marked.now nodes.entry.items) }
{
    let mut kept = Vec::new(alloc);
    let mut number = 0;
    for node in nodes {
        push_unless(&mut kept, marked[number], node)?;
        number += 1;
    }
    Ok(kept)
}

impl<'t, 'a> Listed<'t, 'a> {
    ghost use Rattle.std.specs.Prelude.{◌≡◌, IfOk, length};
    ghost use Rattle.sarif_read.specs.Internal.Listed.{IsKept};
    ghost use Rattle.sarif_read.specs.Internal.Listed.{nodes_of};

    /// How many results there are.
    pub(crate) fn len(&self) -> usize
        ensures { result ≡ length (nodes_of self.now) }
    {
        match self {
            Listed::Array(nodes) => nodes.len(),
            Listed::Missing | Listed::Null => 0,
        }
    }

    /// The same without the results that are marked.
    pub(crate) fn without(
        self,
        alloc: Global,
        marked: &[bool],
    ) -> Result<Listed<'t, 'a>, AllocError>
        requires { length marked.now ≡ length (nodes_of self) }
        ensures { IfOk result (λ kept. IsKept marked.now self.entry kept) }
    {
        match self {
            Listed::Missing => Ok(Listed::Missing),
            Listed::Null => Ok(Listed::Null),
            Listed::Array(nodes) => Ok(Listed::Array(keep_unmarked(alloc, nodes, marked)?)),
        }
    }
}

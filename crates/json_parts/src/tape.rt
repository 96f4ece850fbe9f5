//! A whole document as one list of nodes, one node for each token. The node of an opening bracket holds the number
//! of the node after the closing bracket, so everything between is skipped at once. The JSON crate's own tape is
//! the same list. It finds the places of all tokens first and keeps them, four bytes for each byte of the
//! document; this list is filled while the document is read.
ghost use Rattle.std.specs.Prelude.{◌≡◌, None, IfOk, IfErr, IsSome, map};
ghost use Rattle.json.specs.Json.{document};
ghost use Rattle.json.specs.Lex.{tokens};
ghost use Rattle.json.specs.Tape.{node_token};

mod element;
mod filling;

use crate::indexing::IndexFault;
pub use element::{Contents, Element};
use filling::push_value;
use json::{MAX_DEPTH, Node, Reader, Scratch};
use std::alloc::Global;
use std::marker::Model;

/// The nodes of a document. Contracts see its tokens.
#[derive(Drop)]
pub(crate) struct Tape<'a> {
    nodes: Vec<Node<'a>>,
}

impl<'a> Model for Tape<'a> {
    ghost use Rattle.std.specs.Prelude.{List, map};
    ghost use Rattle.json.specs.Token.{Token, tokens_code};
    ghost use Rattle.json.specs.Tape.{node_token, Linked};

    ghost Value = { List Token };

    ghost coded = { tokens_code };

    ghost view = { λ a. map node_token a.nodes.items };

    ghost invariant = { λ a. Linked (map node_token a.nodes.items) 0 a.nodes.items };
}

impl<'a> Tape<'a> {
    /// Reads a document; `scratch` keeps the strings with escapes.
    pub(crate) fn parse(
        alloc: Global,
        text: &'a str,
        scratch: &'a mut Scratch,
    ) -> Result<Tape<'a>, IndexFault>
        ensures ok { IfOk result (λ tape. (tape ≡ tokens text.now) × IsSome (document text.now)) }
        ensures err { IfErr result (λ e. e ≡ IndexFault.NotJson → document text.now ≡ None) }
    {
        let Ok(mut reader) = Reader::new(text, scratch) else {
            return Err(IndexFault::OutOfMemory);
        };
        let mut nodes = Vec::new(alloc);
        push_value(&mut reader, &mut nodes, MAX_DEPTH)?;
        if reader.next().is_some() {
            return Err(IndexFault::NotJson);
        }
        Ok(Tape { nodes })
    }

    /// The value of the whole text.
    pub(crate) fn root(&self) -> Element<'_, 'a>
        ensures { result ≡ self.now }
    {
        Element::first(&self.nodes)
    }

    /// The nodes, one for each token.
    pub(crate) fn nodes(&self) -> &[Node<'a>]
        ensures { map node_token result.now ≡ self.now }
    {
        &self.nodes
    }
}

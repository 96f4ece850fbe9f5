//! The index of a whole text.
ghost use Rattle.std.specs.Prelude.{◌≡◌, Some, None, IfOk, IfErr};
ghost use Rattle.json_parts.specs.Indexed.{json_of, data_of};
ghost use Rattle.json_parts.specs.Internal.Ordered.{IsOrdered};

use crate::node::Node;
use crate::readable::is_readable;
use crate::tape::Tape;
use json::{Invalid, Scratch};
use std::alloc::Global;
use std::marker::Model;

/// The maximum depth of nested arrays and objects. It is that of `serde_json`, whose definitions call it
/// `max_depth`.
pub const MAX_DEPTH: usize = 127;

/// Why a string has no index.
#[derive(Clone, Copy, Debug, PartialEq, Eq, Drop)]
pub enum IndexFault {
    /// A string that is not UTF-8 or not JSON, nests deeper than `MAX_DEPTH`, or contains a number too large for a
    /// float.
    NotJson,
    /// Memory ran out.
    OutOfMemory,
}

impl From<Invalid> for IndexFault {
    ghost use Rattle.json_parts.specs.declared.indexing.IndexFault.TheVariants.{NotJson};
    ghost use Rattle.std.specs.Prelude.{◌≡◌};

    ghost from_gives = { λ _ fault. fault ≡ NotJson };

    fn from(_: Invalid) -> IndexFault {
        IndexFault::NotJson
    }
}

/// An indexed string. Contracts see it as its tokens; `data_of` is the value.
#[derive(Drop)]
pub struct Index<'a> {
    tape: Tape<'a>,
}

impl<'a> Model for Index<'a> {
    ghost use Rattle.std.specs.Prelude.{List};
    ghost use Rattle.json.specs.Token.{Token, tokens_code};
    ghost use Rattle.json_parts.specs.Indexed.{IsReadable};

    ghost Value = { List Token };

    ghost coded = { tokens_code };

    ghost view = { λ a. a.tape };

    ghost invariant = { λ a. IsReadable a.tape };
}

/// Indexes a string; `scratch` keeps the strings with escapes. Returns `NotJson` if the bytes are not UTF-8 or not
/// JSON, nest deeper than `MAX_DEPTH`, or contain a number too large for a float; `OutOfMemory` if memory runs out.
pub fn index_text<'a>(
    alloc: Global,
    bytes: &'a [u8],
    scratch: &'a mut Scratch,
) -> Result<Index<'a>, IndexFault>
    ensures ok { IfOk result (λ found. json_of bytes.now ≡ Some (data_of found)) }
    ensures ordered { IfOk result (λ found. IsOrdered (data_of found)) }
    ensures err { IfErr result (λ e. e ≡ IndexFault.NotJson → json_of bytes.now ≡ None) }
{
    let Ok(text) = simdutf8::basic::from_utf8(bytes) else {
        return Err(IndexFault::NotJson);
    };
    let tape = Tape::parse(alloc, text, scratch)?;
    if !is_readable(tape.nodes(), MAX_DEPTH) {
        return Err(IndexFault::NotJson);
    }
    Ok(Index { tape })
}

impl<'a> Index<'a> {
    /// The value of the whole text.
    pub fn root(&self) -> Node<'_, 'a>
        ensures value { result ≡ self.now }
        ensures ordered { IsOrdered (data_of result) }
    {
        Node::new(self.tape.root())
    }
}

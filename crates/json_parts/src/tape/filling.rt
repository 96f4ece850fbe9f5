//! Reading the tokens of a document into nodes.
ghost use Rattle.std.specs.Prelude.{◌≡◌, ◌<◌, [], ◌∷◌, ◌++◌, length, slice_set, Some, None, Err, OnOk, IfErr};
ghost use Rattle.json.specs.Json.{skip_value};
ghost use Rattle.json.specs.Reads.{skip_items, skip_members};
ghost use Rattle.json.specs.Tape.{Grown};
ghost use Rattle.json.specs.Token.{begin_array, begin_object};

use crate::indexing::IndexFault;
use json::{Node, Reader, Token};

/// Adds a node.
fn push<'a>(nodes: &mut Vec<Node<'a>>, node: Node<'a>) -> Result<(), IndexFault>
    ensures ok { OnOk result (nodes.new.items ≡ nodes.old.items ++ node.entry ∷ []) }
    ensures err { IfErr result (λ e. e ≡ IndexFault.OutOfMemory) }
{
    match nodes.push(node) {
        Ok(()) => Ok(()),
        Err(_) => Err(IndexFault::OutOfMemory),
    }
}

/// Adds the node of a bracket that closes, and puts `linked` in the place of that which opened it.
fn close<'a>(
    nodes: &mut Vec<Node<'a>>,
    at: usize,
    end: Node<'a>,
    linked: Node<'a>,
) -> Result<(), IndexFault>
    requires { at < length nodes.old.items }
    ensures ok { OnOk result
        (nodes.new.items ≡ slice_set (nodes.old.items ++ end.entry ∷ []) at linked.entry) }
    ensures err { IfErr result (λ e. e ≡ IndexFault.OutOfMemory) }
{
    push(nodes, end)?;
    nodes[at] = linked;
    Ok(())
}

/// Adds the nodes of the next value, whose arrays and objects nest at most `depth` deep.
#[cycle(filling)]
pub(super) fn push_value<'a>(
    reader: &mut Reader<'a>,
    nodes: &mut Vec<Node<'a>>,
    depth: usize,
) -> Result<(), IndexFault>
    ensures ok { OnOk result (Grown nodes.old.items reader.old nodes.new.items reader.new
        × (skip_value depth reader.old ≡ Some reader.new)) }
    ensures shorter { OnOk result (length reader.new < length reader.old) }
    ensures err { result ≡ Err IndexFault.NotJson → skip_value depth reader.old ≡ None }
{
    let token = reader.next().ok_or(IndexFault::NotJson)?;
    match token {
        Token::String(text) => push(nodes, Node::String(text)),
        Token::Number(text) => push(nodes, Node::Number(text)),
        Token::Bool(b) => push(nodes, Node::Bool(b)),
        Token::Null => push(nodes, Node::Null),
        Token::EndObject | Token::EndArray | Token::Key(_) | Token::Bad => Err(IndexFault::NotJson),
        Token::BeginArray => if depth == 0 {
            Err(IndexFault::NotJson)
        } else {
            push_items(reader, nodes, depth - 1)
        },
        Token::BeginObject => if depth == 0 {
            Err(IndexFault::NotJson)
        } else {
            push_members(reader, nodes, depth - 1)
        },
    }
}

/// Adds the nodes of an array, whose opening bracket was read.
#[cycle(filling)]
fn push_items<'a>(
    reader: &mut Reader<'a>,
    nodes: &mut Vec<Node<'a>>,
    depth: usize,
) -> Result<(), IndexFault>
    ensures ok { OnOk result (Grown nodes.old.items (begin_array ∷ reader.old) nodes.new.items
        reader.new × (skip_items depth reader.old ≡ Some reader.new)) }
    ensures shorter { OnOk result (length reader.new < length reader.old) }
    ensures err { result ≡ Err IndexFault.NotJson → skip_items depth reader.old ≡ None }
{
    let at = nodes.len();
    push(nodes, Node::Array(0))?;
    'items: while !reader.take_end_array() {
        push_value(reader, nodes, depth)?;
    }
    let after = nodes.len() + 1;
    close(nodes, at, Node::EndArray, Node::Array(after))
}

/// Adds the nodes of an object, whose opening bracket was read.
#[cycle(filling)]
fn push_members<'a>(
    reader: &mut Reader<'a>,
    nodes: &mut Vec<Node<'a>>,
    depth: usize,
) -> Result<(), IndexFault>
    ensures ok { OnOk result (Grown nodes.old.items (begin_object ∷ reader.old) nodes.new.items
        reader.new × (skip_members depth reader.old ≡ Some reader.new)) }
    ensures shorter { OnOk result (length reader.new < length reader.old) }
    ensures err { result ≡ Err IndexFault.NotJson → skip_members depth reader.old ≡ None }
{
    let at = nodes.len();
    push(nodes, Node::Object(0))?;
    'members: while let Some(name) = reader.next_key()? {
        push(nodes, Node::Key(name))?;
        push_value(reader, nodes, depth)?;
    }
    let after = nodes.len() + 1;
    close(nodes, at, Node::EndObject, Node::Object(after))
}

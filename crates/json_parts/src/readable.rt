//! Returns whether `serde_json` reads a value of a string.
ghost use Rattle.std.specs.Prelude.{◌≡◌, ◌≤◌, ◌&&◌, nat_le, is_some, map};
ghost use Rattle.json.specs.Json.{Json};
ghost use Rattle.json.specs.Tape.{node_token};
ghost use Rattle.json.specs.Tree.{depth as nesting};
ghost use Rattle.serde_json.specs.Read.{of_json};
ghost use Rattle.json_parts.specs.Internal.Whole.{IsWhole};

use crate::number::parse_number;
use json::Node;

/// Returns whether the value of these tokens nests at most `depth` deep, and a finite float is close to each of
/// its numbers. One pass over the tokens decides both: each opening bracket uses one of the remaining levels, and
/// each closing bracket returns it.
pub(crate) fn is_readable(tokens: &[Node<'_>], depth: usize) -> bool
    requires { depth ≤ 1000 }
    ensures { (j : Json) → IsWhole (map node_token tokens.now) j
        → result ≡ (nat_le (nesting j) depth && is_some (of_json j)) }
{
    let mut levels = depth;
    for token in tokens {
        match token {
            Node::Object(_) | Node::Array(_) => {
                if levels == 0 {
                    return false;
                }
                levels -= 1;
            }
            Node::EndObject | Node::EndArray => levels += 1,
            Node::Number(text) => {
                if parse_number(text).is_none() {
                    return false;
                }
            }
            Node::Key(_) | Node::String(_) | Node::Bool(_) | Node::Null => {}
        }
    }
    true
}

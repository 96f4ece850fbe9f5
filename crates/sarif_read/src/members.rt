//! Members of a value of an indexed document that may be missing, as they are after stripping.
ghost use Rattle.std.specs.Prelude.{◌≡◌, option_map, option_and_then};
ghost use Rattle.serde_json.specs.Find.{get};
ghost use Rattle.sarif_model.specs.Internal.FirstLocation as said;
ghost use Rattle.sarif_read.specs.Internal.Listed.{value_at};

use crate::nodes::{integer_member, kept_member, text_of};
use json_parts::Node;

/// The member of that name.
#[tactic(auto, using(crate::proofs::PickedMembers::data_ordered))]
pub(crate) fn member_in<'t, 'a>(found: &Option<Node<'t, 'a>>, name: &str) -> Option<Node<'t, 'a>>
    ensures { option_map value_at result
        ≡ option_and_then (get name.now) (option_map value_at found.now) }
{
    match found {
        Some(node) => kept_member(node, name),
        None => None,
    }
}

/// The string of that name.
pub(crate) fn string_in<'a>(found: &Option<Node<'_, 'a>>, name: &str) -> Option<&'a str>
    ensures { option_map (λ text. text.now) result
        ≡ said.string_in name.now (option_map value_at found.now) }
{
    text_of(&member_in(found, name)?)
}

/// The integer of that name, which is at least 0.
#[tactic(auto, using(crate::proofs::PickedMembers::data_ordered))]
pub(crate) fn integer_in(found: &Option<Node<'_, '_>>, name: &str) -> Option<u64>
    ensures { result ≡ said.integer_in name.now (option_map value_at found.now) }
{
    match found {
        Some(node) => integer_member(node, name),
        None => None,
    }
}

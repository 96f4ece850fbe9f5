//! A pass over the members of an object of an indexed log, in the order of the text.
ghost use Rattle.std.specs.Prelude.{◌≡◌, ◌<◌, ℕ, length, option_map, IfSome, OnSome};
ghost use Rattle.serde_json.specs.Data.{Members};
ghost use Rattle.serde_json.specs.Find.{as_str};
ghost use Rattle.json_parts.specs.Indexed.{IsReadable, data_of};
ghost use Rattle.json_parts.specs.Internal.Walking.{MembersAre, NextMember, OpensObject};

use json_parts::{Contents, Element, Node};

/// The members, if this is an object.
pub(crate) fn members_in<'t, 'a>(node: &Node<'t, 'a>) -> Option<Contents<'t, 'a>>
    ensures { OpensObject node.now result }
{
    let element = node.element();
    element.members()
}

/// The next member with its name, if there is one.
pub(crate) fn take_member<'t, 'a>(
    members: &mut Contents<'t, 'a>,
) -> Option<(&'a str, Element<'t, 'a>)>
    requires { (n : ℕ) × (ms : Members) × MembersAre n members.old ms }
    ensures value { NextMember members.old (option_map (λ m. (m.0.now, m.1)) result) members.new }
    ensures readable { IfSome result (λ m. IsReadable m.1) }
    ensures shorter { OnSome result (length members.new < length members.old) }
{
    members.next_member()
}

/// The string, if this is one.
pub(crate) fn string_of<'a>(value: &Element<'_, 'a>) -> Option<&'a str>
    requires { IsReadable value.now }
    ensures { option_map (λ s. s.now) result ≡ as_str (data_of value.now) }
{
    value.as_str()
}

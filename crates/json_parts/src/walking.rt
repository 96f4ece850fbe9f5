//! Iterators over the elements of an array and the members of an object.
ghost use Rattle.std.specs.Prelude.{◌<◌, ℕ, length, option_map, IfSome, OnSome};
ghost use Rattle.serde_json.specs.Data.{Items, Members};
ghost use Rattle.json_parts.specs.Indexed.{data_of};
ghost use Rattle.json_parts.specs.Internal.Ordered.{IsOrdered};
ghost use Rattle.json_parts.specs.Internal.Walking.{ElementsAre, MembersAre, NextElement, NextMember};

use crate::node::Node;
use crate::tape::Contents;

pub(crate) fn next_element<'t, 'a>(items: &mut Contents<'t, 'a>) -> Option<Node<'t, 'a>>
    requires { (n : ℕ) × (ds : Items) × ElementsAre n items.old ds }
    ensures value { NextElement items.old result items.new }
    ensures shorter { OnSome result (length items.new < length items.old) }
{
    let element = items.next_item()?;
    Some(Node::new(element))
}

pub(crate) fn next_member<'t, 'a>(members: &mut Contents<'t, 'a>) -> Option<(&'a str, Node<'t, 'a>)>
    requires { (n : ℕ) × (ms : Members) × MembersAre n members.old ms }
    ensures value { NextMember members.old (option_map (λ m. (m.0.now, m.1)) result) members.new }
    ensures ordered { IfSome result (λ m. IsOrdered (data_of m.1)) }
    ensures shorter { OnSome result (length members.new < length members.old) }
{
    let (name, element) = members.next_member()?;
    Some((name, Node::new(element)))
}

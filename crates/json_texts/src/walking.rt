//! Passes over the items of an array and the members of an object.
ghost use Rattle.std.specs.Prelude.{◌<◌, ℕ, length, option_map, IfSome, OnSome};
ghost use Rattle.json.specs.Json.{Items, Members};
ghost use Rattle.json_texts.specs.Internal.Walking.{IsWritable, ItemsStand, MembersStand, OpensArray, OpensObject, NextItem, NextMember};

use json_parts::{Contents, Element};

/// The items, if this is an array.
pub(crate) fn items_in<'t, 'a>(element: &Element<'t, 'a>) -> Option<Contents<'t, 'a>>
    requires { IsWritable element.now }
    ensures { OpensArray element.now result }
{
    element.items()
}

/// The members, if this is an object.
pub(crate) fn members_in<'t, 'a>(element: &Element<'t, 'a>) -> Option<Contents<'t, 'a>>
    requires { IsWritable element.now }
    ensures { OpensObject element.now result }
{
    element.members()
}

/// The next item, if there is one.
pub(crate) fn take_item<'t, 'a>(items: &mut Contents<'t, 'a>) -> Option<Element<'t, 'a>>
    requires { (n : ℕ) × (js : Items) × ItemsStand n items.old js }
    ensures value { NextItem items.old result items.new }
    ensures writable { IfSome result IsWritable }
    ensures shorter { OnSome result (length items.new < length items.old) }
{
    items.next_item()
}

/// The next member with its name, if there is one.
pub(crate) fn take_member<'t, 'a>(
    members: &mut Contents<'t, 'a>,
) -> Option<(&'a str, Element<'t, 'a>)>
    requires { (n : ℕ) × (ms : Members) × MembersStand n members.old ms }
    ensures value { NextMember members.old (option_map (λ m. (m.0.now, m.1)) result) members.new }
    ensures writable { IfSome result (λ m. IsWritable m.1) }
    ensures shorter { OnSome result (length members.new < length members.old) }
{
    members.next_member()
}

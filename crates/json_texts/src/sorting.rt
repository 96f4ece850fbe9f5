//! The members of an object in the order of their names, each name once.
ghost use Rattle.std.specs.Prelude.{◌≡◌, ◌+◌, ◌≤◌, ◌<◌, length, max, IsTrue, IfOk, OnOk, option_map};
ghost use Rattle.json_parts.specs.Indexed.{json_at};
ghost use Rattle.json_parts.specs.Internal.Walking.{depth_of};
ghost use Rattle.json_texts.specs.Whole.{put};
ghost use Rattle.json_texts.specs.Internal.Walking.{IsWritable, AreWritable, members_at, nesting, place, is_there, Sorts};

use crate::walking::{members_in, take_member};
use json_parts::Element;
use std::alloc::{AllocError, Global};
use std::cmp::Ordering;
use std::collections::BTreeMap;

/// The most members that are sorted in a list. More are sorted in a map.
const MOST_LISTED: usize = 32;

/// A member of an object: its name, and where its value is.
#[derive(Drop)]
pub(crate) struct Member<'t, 'a> {
    pub(crate) name: &'a str,
    pub(crate) value: Element<'t, 'a>,
}

/// The number of the first member whose name is not below this one, and whether it has this name.
fn place_of(list: &[Member<'_, '_>], name: &str) -> (usize, bool)
    ensures place { result.0 ≡ place name.now list.now }
    ensures there { result.1 ≡ is_there name.now list.now }
    ensures bound { result.0 ≤ length list.now }
    ensures within { IsTrue result.1 → result.0 < length list.now }
{
    let mut at = 0;
    while at < list.len() {
        match name.cmp(list[at].name) {
            Ordering::Less => return (at, false),
            Ordering::Equal => return (at, true),
            Ordering::Greater => at += 1,
        }
    }
    (at, false)
}

/// Puts a member at its position; the value of one with its name is replaced. Returns `AllocError` if memory runs out.
fn put_member<'t, 'a>(
    list: &mut Vec<Member<'t, 'a>>,
    member: Member<'t, 'a>,
) -> Result<(), AllocError>
    requires writable { IsWritable member.value × AreWritable list.old.items }
    ensures put { OnOk result (members_at list.new.items
        ≡ put member.entry.name.now (json_at member.entry.value) (members_at list.old.items)) }
    ensures writable { OnOk result (AreWritable list.new.items) }
    ensures nested { OnOk result
        (nesting list.new.items ≤ max (depth_of member.entry.value) (nesting list.old.items)) }
{
    let (at, is_there) = place_of(list.as_slice(), member.name);
    if is_there {
        list[at] = member;
    } else {
        list.insert(at, member)?;
    }
    Ok(())
}

/// The members in order, sorted in a map, if this is an object.
fn sorted_in_map<'t, 'a>(
    alloc: Global,
    element: &Element<'t, 'a>,
) -> Result<Option<Vec<Member<'t, 'a>>>, AllocError>
    requires { IsWritable element.now }
    ensures { IfOk result (λ found. Sorts element.now (option_map (λ v. v.items) found)) }
{
    let Some(mut members) = members_in(element) else {
        return Ok(None);
    };
    let mut found = BTreeMap::new(alloc);
    'members: while let Some((name, value)) = take_member(&mut members) {
        drop(found.insert(name, value)?);
    }
    let mut list = Vec::new(alloc);
    'listed: while let Some((name, value)) = found.pop_first() {
        list.push(Member { name, value })?;
    }
    Ok(Some(list))
}

/// The members in the order of their names, if this is an object. If several have one name, the last has the value.
/// Returns `AllocError` if memory for the list runs out.
pub(crate) fn sorted_members<'t, 'a>(
    alloc: Global,
    element: &Element<'t, 'a>,
) -> Result<Option<Vec<Member<'t, 'a>>>, AllocError>
    requires { IsWritable element.now }
    ensures { IfOk result (λ found. Sorts element.now (option_map (λ v. v.items) found)) }
{
    let Some(mut members) = members_in(element) else {
        return Ok(None);
    };
    let mut list = Vec::with_capacity(alloc, 8)?;
    'members: while let Some((name, value)) = take_member(&mut members) {
        if list.len() == MOST_LISTED {
            return sorted_in_map(alloc, element);
        }
        put_member(&mut list, Member { name, value })?;
    }
    Ok(Some(list))
}

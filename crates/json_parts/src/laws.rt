//! Laws of stripping and of leaving a member out, each proved for all values.
ghost use Rattle.json_parts.specs.Laws.{MembersStrip, MembersStay, MembersGo, BothOrders};

/// In data that is read, a member of a stripped value is that member stripped, unless it is
/// fractional.
pub fn members_are_stripped()
    ensures { MembersStrip }
{}

/// Leaving out a member leaves the others.
pub fn other_members_stay()
    ensures { MembersStay }
{}

/// What is left out isn't found.
pub fn the_member_goes()
    ensures { MembersGo }
{}

/// Stripping and leaving a member out may come in either order.
pub fn stripping_before_or_after()
    ensures { BothOrders }
{}

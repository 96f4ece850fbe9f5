//! Whether two results have a fingerprint in common. A member is filled if its value isn't the empty string.
ghost use Rattle.std.specs.Prelude.{◌≡◌, ◌==◌, ◌&&◌, None, true, not, length, bytes_eq, if◌then◌else◌};
ghost use Rattle.std.specs.List.{list_any};
ghost use Rattle.std.specs.Option.{option_copied};
ghost use Rattle.std.specs.Ordering.{is_lt, nat_cmp};
ghost use Rattle.std.specs.Cmp.Lexicographic.{slice_cmp};
ghost use Rattle.sarif_evidence.specs.Evidence.{share_member};
ghost use Rattle.sarif_evidence.specs.Internal.Rising.{begins_with, from_name, is_below, rises_from};
ghost use Rattle.sarif_evidence.specs.Seen.{filled};

use crate::evidence::is_same;
use crate::seeing::is_filled;
use sarif_model::Text;

/// Whether a name has the same value in both, and not the empty string. Lists in byte order of their names, as a log
/// gives them, are gone through once.
pub(crate) fn share_member(members: &[(Text, Text)], others: &[(Text, Text)]) -> bool
    ensures { result ≡ share_member (filled members.now) (filled others.now) }
{
    if rises(members) && rises(others) {
        share_in_step(members, others)
    } else {
        share_any(members, others)
    }
}

/// Whether the names of members rise strictly.
fn rises(members: &[(Text, Text)]) -> bool
    ensures { result ≡ rises_from None members.now }
{
    let mut before: Option<&Text> = None;
    for member in members {
        if !is_after(before, &member.0) {
            return false;
        }
        before = Some(&member.0);
    }
    true
}

/// Whether a name comes after the one before it, if there is one.
fn is_after(before: Option<&Text>, name: &Text) -> bool
    ensures { result ≡ is_below (option_copied before.entry) name.now }
{
    match before {
        Some(before) => is_less(before, name),
        None => true,
    }
}

fn is_less(name: &Text, other: &Text) -> bool
    ensures { result ≡ is_lt (slice_cmp nat_cmp name.now other.now) }
{
    name.cmp(other).is_lt()
}

/// Whether a name has the same value in both, for members whose names rise.
fn share_in_step(members: &[(Text, Text)], others: &[(Text, Text)]) -> bool
    requires members { rises_from None members.now ≡ true }
    requires others { rises_from None others.now ≡ true }
    ensures { result ≡ share_member (filled members.now) (filled others.now) }
{
    let mut rest = others;
    for member in members {
        rest = rest_after(rest, member);
        if is_first(rest, member) {
            return true;
        }
    }
    false
}

/// The members from the name of a filled member on, and all of them after one that isn't filled.
fn rest_after<'a>(members: &'a [(Text, Text)], member: &(Text, Text)) -> &'a [(Text, Text)]
    ensures { result.now ≡ (if not (length member.now.1 == 0)
        then from_name member.now.0 members.now else members.now) }
{
    if is_filled(member) {
        from_name(members, &member.0)
    } else {
        members
    }
}

/// Whether a member is filled, and the first of these.
fn is_first(members: &[(Text, Text)], member: &(Text, Text)) -> bool
    ensures { result
        ≡ (not (length member.now.1 == 0) && begins_with member.now members.now) }
{
    is_filled(member) && begins_with(members, member)
}

/// The members from the first one on whose name isn't below this one.
fn from_name<'a>(members: &'a [(Text, Text)], name: &Text) -> &'a [(Text, Text)]
    ensures { result.now ≡ from_name name.now members.now }
{
    for (number, member) in members.iter().enumerate() {
        if !is_less(&member.0, name) {
            return &members[number..];
        }
    }
    &members[members.len()..]
}

/// Whether the first of these members is filled, and is this one.
fn begins_with(members: &[(Text, Text)], member: &(Text, Text)) -> bool
    ensures { result ≡ begins_with member.now members.now }
{
    match members.first() {
        Some(first) => is_filled(first) && is_same(first, member),
        None => false,
    }
}

/// Whether two lists have a filled member in common, by comparing each member with all others.
fn share_any(members: &[(Text, Text)], others: &[(Text, Text)]) -> bool
    ensures { result ≡ share_member (filled members.now) (filled others.now) }
{
    for member in members {
        if is_filled(member) && has_member(others, member) {
            return true;
        }
    }
    false
}

/// Whether this is one of the filled members.
fn has_member(members: &[(Text, Text)], member: &(Text, Text)) -> bool
    ensures { result ≡ list_any
        (λ other. bytes_eq other.0 member.now.0 && bytes_eq other.1 member.now.1)
        (filled members.now) }
{
    for other in members {
        if is_filled(other) && is_same(other, member) {
            return true;
        }
    }
    false
}

//! A law of reading, the contract of a function that does nothing.
ghost use Rattle.std.specs.Prelude.{◌≡◌, ℕ, List};
ghost use Rattle.serde_json.specs.Data.{Members};
ghost use Rattle.serde_json.specs.Find.{get_member};
ghost use Rattle.json_parts.specs.Internal.Ordered.{AreMembersOrdered};
ghost use Rattle.sarif_members.specs.Fingerprints.{pairs_among};

/// Two objects with the same value at each name give the same pairs, in any order of members in the JSON: when
/// members are read, names are sorted.
pub fn same_members_give_the_same_pairs()
    ensures { (ms ns : Members) → AreMembersOrdered ms → AreMembersOrdered ns
        → ((name : List ℕ) → get_member name ms ≡ get_member name ns)
        → pairs_among ms ≡ pairs_among ns }
{}

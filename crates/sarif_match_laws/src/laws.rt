//! Laws of tiers, keys, matches and states. Each law is the contract of a function that does nothing.
ghost use Rattle.std.specs.Prelude.{◌≡◌, ◌≢◌, ◌<◌, ◌↔◌, ◌⊎◌, ◌||◌, ◌∷◌, ◌++◌, [], ℕ, List, Some, None, true};
ghost use Rattle.std.specs.Prelude.{false, IsTrue, length, map, slice_get, slice_index_or};
ghost use Rattle.std.specs.Ordering.{nat_cmp};
ghost use Rattle.std.specs.Cmp.Lexicographic.{slice_cmp};
ghost use Rattle.std.specs.List.Sorted.{IsStrictlySortedBy};
ghost use Rattle.sarif_model.specs.declared.record.Record.{Record};
ghost use Rattle.sarif_model.specs.declared.kinds.State.TheVariants.{Unchanged, Updated};
ghost use Rattle.sarif_evidence.specs.declared.version.MatchingVersion.{MatchingVersion};
ghost use Rattle.sarif_evidence.specs.declared.version.MatchingVersion.TheVariants.{Two, Three};
ghost use Rattle.sarif_evidence.specs.Seen.{seen};
ghost use Rattle.sarif_evidence.specs.Evidence.{has_evidence, has_other_evidence, state_in};
ghost use Rattle.sarif_evidence.specs.State.{state_of, IsUnchanged};
ghost use Rattle.sarif_match.specs.declared.tier_key.Key.{Key};
ghost use Rattle.sarif_match.specs.Key.{group_of};
ghost use Rattle.sarif_match.specs.KeyParts.{KeyParts, parts_of};
ghost use Rattle.sarif_match.specs.Internal.Queues.{same_key};
ghost use Rattle.sarif_match.specs.declared.tier.Tier.{Tier};
ghost use Rattle.sarif_match.specs.declared.tier.Tier.TheVariants.{PlaceLeft};
ghost use Rattle.sarif_match.specs.Internal.Paired.{ArePartners, IsPairedAt, key_at, key_in_at};
ghost use Rattle.sarif_match.specs.Partners.{is_taken, partners_after, partners_in, partners_of};
ghost use Rattle.sarif_match.specs.Tiers.{names_of, has_name, rising_names, tiers_in, tiers_of};
ghost use Rattle.sarif_match_laws.specs.SameFinding.{AreMatchedAt, AreTheSame, HaveUnlikeSnippets, match_in};
ghost use Rattle.sarif_match_laws.specs.FromEnd.{ArePartnersFromEnd};
ghost use Rattle.sarif_match_laws.specs.Hidden.{AreEqualInTwo, HasEachNameOnce, HaveSameSnippet};
ghost use Rattle.sarif_match_laws.specs.Leaving.{AreReordered, AreWithoutNames, LeaveAsMany, partners_by};
ghost use Rattle.sarif_match_laws.specs.Leaving.{tiers_without_places, without_text};
ghost use Rattle.sarif_match_laws.specs.AnyOrder.{AreWithoutPartials, HaveOneLevel};
ghost use Rattle.sarif_match_laws.specs.ByTool.{HaveNoToolInCommon, IsMatchedApart};

/// Two keys are equal if and only if they belong to the same tier and all their parts are equal.
pub fn keys_are_equal_where_their_parts_are()
    ensures { (a b : Key) → IsTrue (same_key a b) ↔ (parts_of a ≡ parts_of b) }
{}

/// The fingerprint names of the tiers are exactly those of the results, each once. The tiers have them in reverse
/// byte order.
pub fn names_are_sorted()
    ensures rising { (current baseline : List Record) →
        IsStrictlySortedBy (slice_cmp nat_cmp) (rising_names current baseline) }
    ensures just { (current baseline : List Record) (name : List ℕ) →
        has_name name (rising_names current baseline)
        ≡ (has_name name (names_of current) || has_name name (names_of baseline)) }
{}

/// A baseline result is the match of a current result if and only if the two match at one tier: they have equal
/// keys and equal ranks at it, and no earlier tier matched either of them.
pub fn partners_are_paired_at_one_tier()
    ensures { (current baseline : List Record) (i j : ℕ) →
        (slice_index_or (partners_of current baseline) i None ≡ Some j)
        ↔ ArePartners current baseline i j }
{}

/// No baseline result is the match of two current results.
pub fn no_baseline_result_has_two_partners()
    ensures { (current baseline : List Record) (i k j : ℕ) →
        slice_index_or (partners_of current baseline) i None ≡ Some j →
        slice_index_or (partners_of current baseline) k None ≡ Some j → i ≡ k }
{}

/// After a tier the matches are the earlier ones and exactly the pairs of that tier.
pub fn a_tier_adds_just_its_pairs()
    ensures { (current baseline : List Record) (before : List Tier) (tier : Tier) (i j : ℕ) →
        (slice_index_or (partners_after current baseline (before ++ tier ∷ [])) i None ≡ Some j)
        ↔ ((slice_index_or (partners_after current baseline before) i None ≡ Some j)
        ⊎ IsPairedAt current baseline (partners_after current baseline before) tier i j) }
{}

/// A matched result is unchanged if and only if its kind, effective level, message and place are those of its
/// match.
pub fn unchanged_results_are_equal()
    ensures { (current partner : Record) →
        (state_of current (Some partner) ≡ Unchanged) ↔ IsUnchanged current partner }
{}

/// Nothing is left that could be matched: if a current result has no match and a baseline result is the match of no
/// result, they have no key in common at any tier.
pub fn nothing_is_left_that_could_be_matched()
    ensures { (current baseline : List Record) (before after : List Tier) (tier : Tier) (i j : ℕ)
        (key : KeyParts) → tiers_of current baseline ≡ before ++ tier ∷ after
        → slice_index_or (partners_of current baseline) i None ≡ None
        → is_taken (partners_of current baseline) j ≡ false
        → key_at tier current i ≡ Some key → ¬ (key_at tier baseline j ≡ Some key) }
{}

/// In version 3 a result is unchanged only if its match has the same kind, effective level, message and place, and
/// there is evidence: if both have a snippet, the two are the same except for white space; otherwise a GUID, a
/// fingerprint or all partial fingerprints are the same, or neither has a fingerprint of either type. A fingerprint
/// whose value is the empty string and a snippet of white space alone are left out. With all of that it is unchanged.
pub fn unchanged_results_have_evidence()
    ensures same { (current partner : Record) →
        state_in Three current (Some partner) ≡ Unchanged → IsUnchanged current partner }
    ensures snippet { (current partner : Record) (snippet other : List ℕ) →
        state_in Three current (Some partner) ≡ Unchanged → (seen current).snippet ≡ Some snippet →
        (seen partner).snippet ≡ Some other → snippet ≡ other }
    ensures other { (current partner : Record) →
        state_in Three current (Some partner) ≡ Unchanged →
        ((seen current).snippet ≡ None) ⊎ ((seen partner).snippet ≡ None) →
        has_other_evidence (seen current) (seen partner) ≡ true }
    ensures enough { (current partner : Record) → IsUnchanged current partner →
        has_evidence (seen current) (seen partner) ≡ true →
        state_in Three current (Some partner) ≡ Unchanged }
{}

/// In either version nothing is left that could be matched: if a current result has no match and a baseline result is
/// the match of no result, they have no key in common at any tier. So in version 3 two results of one group, with no
/// GUID, are not both left.
pub fn nothing_is_left_in_either_version()
    ensures keys { (version : MatchingVersion) (current baseline : List Record)
        (before after : List Tier)
        (tier : Tier) (i j : ℕ) (key : KeyParts) →
        tiers_in version current baseline ≡ before ++ tier ∷ after
        → slice_index_or (partners_in version current baseline) i None ≡ None
        → is_taken (partners_in version current baseline) j ≡ false
        → key_in_at version tier current i ≡ Some key
        → ¬ (key_in_at version tier baseline j ≡ Some key) }
    ensures groups { (current baseline : List Record) (i j : ℕ) (r b : Record) →
        slice_get current i ≡ Some r → slice_get baseline j ≡ Some b
        → r.guid ≡ None → b.guid ≡ None → group_of r ≡ group_of b
        → slice_index_or (partners_in Three current baseline) i None ≡ None
        → ¬ (is_taken (partners_in Three current baseline) j ≡ false) }
{}

/// In either version no baseline result is the match of two current results.
pub fn no_two_have_the_same_match_in_either_version()
    ensures { (version : MatchingVersion) (current baseline : List Record) (i h j : ℕ) →
        slice_index_or (partners_in version current baseline) i None ≡ Some j →
        slice_index_or (partners_in version current baseline) h None ≡ Some j → i ≡ h }
{}

/// No blind spot: in version 3 an unchanged result has a match of the same tool, kind, effective level, message and
/// place. If both have a snippet, the two are the same except for white space; otherwise there is other evidence. So a
/// result is new or updated if every baseline result of its tool, place and message has another snippet than its own.
pub fn unchanged_results_have_a_match_that_is_the_same()
    ensures same { (current baseline : List Record) (i : ℕ) (r : Record) →
        slice_get current i ≡ Some r →
        state_in Three r (match_in Three current baseline i) ≡ Unchanged →
        (j : ℕ) × (b : Record)
        × (slice_index_or (partners_in Three current baseline) i None ≡ Some j)
        × (slice_get baseline j ≡ Some b) × AreTheSame r b }
    ensures snippet { (current baseline : List Record) (i : ℕ) (r : Record) (snippet : List ℕ) →
        slice_get current i ≡ Some r → (seen r).snippet ≡ Some snippet →
        ((j : ℕ) (b : Record) → slice_get baseline j ≡ Some b →
        b.tool ≡ r.tool → b.place ≡ r.place → b.message ≡ r.message →
        (other : List ℕ) × ((seen b).snippet ≡ Some other) × (snippet ≢ other)) →
        ¬ (state_in Three r (match_in Three current baseline i) ≡ Unchanged) }
{}

/// In version 3 two results that match have evidence, unless they match at the last tier or their snippets differ.
pub fn matches_have_evidence_but_for_the_last_tier()
    ensures tier { (current baseline : List Record) (i j : ℕ) →
        slice_index_or (partners_in Three current baseline) i None ≡ Some j →
        (j < length baseline) × ((tier : Tier) × AreMatchedAt current baseline tier i j) }
    ensures evidence { (current baseline : List Record) (tier : Tier) (i j : ℕ) (r b : Record) →
        slice_get current i ≡ Some r → slice_get baseline j ≡ Some b →
        AreMatchedAt current baseline tier i j →
        (tier ≡ PlaceLeft)
        ⊎ ((has_evidence (seen r) (seen b) ≡ true) ⊎ HaveUnlikeSnippets r b) }
{}

/// As many: without the tiers PlaceText and Place, version 3 leaves as many current results of each group new, and as
/// many of the baseline absent. So these tiers only say which results of a group match.
pub fn as_many_are_left_without_the_tiers_of_places()
    ensures { (current baseline : List Record) → LeaveAsMany current baseline
        (partners_in Three current baseline)
        (partners_by (tiers_without_places current baseline) current baseline) }
{}

/// As many: if no result has a GUID or a fingerprint of either type, both versions leave as many results of each group
/// new and absent. In version 3 they are as many whichever tiers there are before the last one, and without regions
/// and snippets.
pub fn as_many_are_left_without_guids_and_fingerprints()
    ensures versions { (current baseline : List Record) →
        AreWithoutNames current → AreWithoutNames baseline → LeaveAsMany current baseline
        (partners_in Three current baseline) (partners_in Two current baseline) }
    ensures tiers { (current baseline : List Record) (tiers : List Tier) →
        AreWithoutNames current → AreWithoutNames baseline → LeaveAsMany current baseline
        (partners_in Three current baseline)
        (partners_by (tiers ++ PlaceLeft ∷ []) current baseline) }
    ensures text { (current baseline : List Record) →
        AreWithoutNames current → AreWithoutNames baseline → LeaveAsMany current baseline
        (partners_in Three current baseline)
        (partners_in Three (map without_text current) (map without_text baseline)) }
{}

/// In version 3 a baseline result is the match of a current result if and only if the two match at one tier: they have
/// equal keys at it, no earlier tier matched either of them, and as many unmatched current results with that key come
/// after the one as unmatched baseline results with it come after the other. So the last matches the last.
pub fn ranks_count_from_the_end_in_version_3()
    ensures { (current baseline : List Record) (i j : ℕ) →
        (slice_index_or (partners_in Three current baseline) i None ≡ Some j)
        ↔ ArePartnersFromEnd current baseline i j }
{}

/// In version 3 an unchanged result and its match have the same snippet, or they have equal keys at a tier of version 2.
/// Snippets are compared without their white space, and fingerprints whose value is the empty string are left out. In the
/// `fingerprints` of both, each name occurs once.
pub fn unchanged_results_have_one_snippet_or_are_equal_in_version_2()
    ensures { (current baseline : List Record) (i j : ℕ) (r b : Record) →
        slice_get current i ≡ Some r → slice_get baseline j ≡ Some b →
        HasEachNameOnce r.full → HasEachNameOnce b.full →
        slice_index_or (partners_in Three current baseline) i None ≡ Some j →
        state_in Three r (Some b) ≡ Unchanged →
        HaveSameSnippet (seen r) (seen b) ⊎ AreEqualInTwo (seen r) (seen b) }
{}

/// If the baseline has the same results in any order, each current result has a match in either version, so none is new.
pub fn the_same_results_match_in_any_order()
    ensures { (version : MatchingVersion) (current baseline : List Record) (i : ℕ) →
        AreReordered current baseline → i < length current →
        (j : ℕ) × (slice_index_or (partners_in version current baseline) i None ≡ Some j) }
{}

/// Results are matched by tool: let two current lists and their baselines be such that no tool has results in both. Then
/// the matching of the lists in turn is the two matchings, in both versions. So the results of each tool can be matched
/// on their own.
pub fn tools_are_matched_apart()
    ensures { (version : MatchingVersion) (cs bs more others : List Record)
        → HaveNoToolInCommon (cs ++ bs) (more ++ others)
        → IsMatchedApart version cs bs more others }
{}

/// The same results are unchanged in any order: in version 3 let the baseline have the same results in another order. Let
/// none have a GUID or a partial fingerprint whose value isn't the empty string, and let those of one group have one kind
/// and one effective level. Then each is unchanged.
pub fn the_same_results_are_unchanged_in_any_order()
    ensures { (current baseline : List Record) (i : ℕ) (r : Record) →
        AreReordered current baseline → AreWithoutPartials current →
        HaveOneLevel current baseline → slice_get current i ≡ Some r →
        state_in Three r (match_in Three current baseline i) ≡ Unchanged }
{}

/// A match without evidence is updated: in version 3 each result that matches at the last tier is updated, and each whose
/// snippet and that of its match differ in more than white space. In the `fingerprints` of both, each name occurs once.
pub fn matches_without_evidence_are_updated()
    ensures last { (current baseline : List Record) (i j : ℕ) (r b : Record) →
        slice_get current i ≡ Some r → slice_get baseline j ≡ Some b →
        HasEachNameOnce r.full → HasEachNameOnce b.full →
        slice_index_or (partners_in Three current baseline) i None ≡ Some j →
        AreMatchedAt current baseline PlaceLeft i j →
        state_in Three r (Some b) ≡ Updated }
    ensures snippets { (r b : Record) →
        HaveUnlikeSnippets r b → state_in Three r (Some b) ≡ Updated }
{}

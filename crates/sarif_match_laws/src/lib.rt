//! Laws of matching, each the contract of a function that does nothing.
#![tactic(auto)]

mod laws;

pub use laws::{
    a_tier_adds_just_its_pairs, as_many_are_left_without_guids_and_fingerprints,
    as_many_are_left_without_the_tiers_of_places, keys_are_equal_where_their_parts_are,
    matches_have_evidence_but_for_the_last_tier, matches_without_evidence_are_updated,
    names_are_sorted, no_baseline_result_has_two_partners,
    no_two_have_the_same_match_in_either_version, nothing_is_left_in_either_version,
    nothing_is_left_that_could_be_matched, partners_are_paired_at_one_tier,
    ranks_count_from_the_end_in_version_3, the_same_results_are_unchanged_in_any_order,
    the_same_results_match_in_any_order, tools_are_matched_apart, unchanged_results_are_equal,
    unchanged_results_have_a_match_that_is_the_same, unchanged_results_have_evidence,
    unchanged_results_have_one_snippet_or_are_equal_in_version_2,
};

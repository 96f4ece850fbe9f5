//! Laws of accepting and pruning, each the contract of a function that does nothing.
#![tactic(auto)]

mod choosing_laws;
mod laws;
mod next_laws;

pub use choosing_laws::{
    a_chosen_hit_gets_an_entry, a_file_that_adds_entries_is_read, choosing_all_accepts_all,
    each_hit_is_accepted_alike_or_another, each_hit_is_accepted_alike_or_left,
    hits_that_no_entry_matches_are_left, other_hits_are_left,
};
pub use laws::{
    a_hit_with_suppressions_stays, a_new_file_keeps_suppressions, accepting_leaves_what_stays,
    an_entry_accepts_its_result, guids_have_128_bits, pruning_changes_no_result,
    the_new_file_is_read, version_2_accepts_no_snippet,
};
pub use next_laws::{
    the_new_file_counts_limits_alike, the_next_merge_has_the_hits_that_are_left,
    the_next_merge_has_the_hits_that_stay, the_next_merge_has_the_same_suppressions,
};

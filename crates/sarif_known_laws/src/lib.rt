//! Laws of the known log, each the contract of a function that does nothing.
#![tactic(auto)]

mod laws;

pub use laws::{
    just_these_results_become_known, own_suppressions_of_a_baseline_change_no_match,
    version_2_matches_without_regions, what_is_known_is_read_again, what_is_read_can_be_known,
};

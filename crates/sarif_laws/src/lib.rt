//! Laws of whole merges: what accepting results, pruning the suppression file and adopting results change in the next
//! merge, what a diff changes, and what reports show with a policy.
#![tactic(auto)]

mod change;
mod laws;
mod policy;

pub use change::{
    a_diff_changes_no_known_log, a_diff_narrows_the_hits, no_hit_in_the_change_passes,
    without_a_diff_all_hits_count,
};
pub use laws::{
    accepting_leaves_the_hits_that_stay, accepting_with_a_change_leaves_the_others,
    adopting_leaves_nothing_new, each_hit_looked_at_is_accepted_alike_or_stays,
    each_unused_entry_has_a_line, logs_differ_only_in_ignored_fingerprints,
    own_suppressions_of_a_baseline_change_no_result, parts_by_tool_add_up, pruning_changes_no_run,
    snippets_that_no_entry_compares_change_nothing, the_gate_counts_the_hits,
    the_known_log_is_read_again, the_new_file_is_read_as_itself,
};
pub use policy::{
    accepting_takes_the_hits_of_the_policy, findings_of_a_merge_follow_its_policy,
    junit_fails_if_the_policy_does,
};

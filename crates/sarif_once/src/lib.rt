//! Judged runs without their copies, and the copies separately.
#![tactic(auto)]

mod laws;
mod leaving;
mod marking;
mod parting;
mod spreading;
mod thinning;
mod weaving;

pub use laws::{
    findings_keep_what_is_theirs, parted_drafts_make_the_whole,
    records_without_copies_are_those_of_findings, results_alike_to_earlier_ones_change_no_finding,
    results_that_are_not_marked_stay,
};
pub use leaving::{LeftDrafts, weave_left};
pub use marking::{CopyMarks, mark_copies};
pub use parting::{Parted, part_runs};
pub use spreading::{spread_marks, spread_states};
pub use weaving::weave_drafts;

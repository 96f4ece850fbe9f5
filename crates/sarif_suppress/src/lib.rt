//! All entries of the suppression file of `sarif_gate`: which of them match a result, the suppressions that they add, and
//! those that match no result. `whole.rt` has the calls that the merge doesn't make.
#![tactic(auto)]

mod admission;
mod lasting;
mod laws;
mod limited_laws;
mod marks;
mod objects;
mod read_file;
mod select;
mod suppressions;
mod unseen;
mod whole;

pub use laws::{
    nothing_is_written_of_nothing, written_passes_where_its_parts_do,
    written_suppressions_say_what_is_suppressed,
};
pub use limited_laws::{
    an_entry_matches_as_many_as_its_limit, an_entry_matches_the_first_results_that_meet_it,
    results_stay_if_no_entry_has_a_limit,
};
pub use marks::Marks;
pub use read_file::read_rules_with;
pub use select::all_accepted;
pub use suppressions::{Applied, Suppressions};
pub use whole::read_rules;

//! Which results of a merge are copies of an earlier one.
#![tactic(auto)]

mod apart;
mod firsts;
mod laws;
mod others;
mod whole_record;

pub use apart::{Apart, set_apart};
pub use firsts::findings;
pub use laws::{
    findings_are_their_own, records_are_equal_where_their_fields_are,
    results_have_one_finding_where_they_are_alike,
};
pub use others::list_alike;

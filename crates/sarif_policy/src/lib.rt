//! The policy file of `sarif_gate`: conditions of the gate, each with its own level, states, limit and filters.
#![tactic(auto)]

mod condition;
mod decimal;
mod fault;
mod laws;
mod limits;
mod members;
mod rating;
mod read_condition;
mod read_file;
mod read_filter;

pub use condition::{GateCondition, GatePolicy, Minimum, Unrated};
pub use decimal::Decimal;
pub use fault::{FilterList, PolicyCause, PolicyFault, PolicyPlace};
pub use laws::{
    a_decimal_is_the_number_of_its_text, a_filter_matches_as_its_conditions_are_met,
    no_filter_has_a_max,
};
pub use limits::{LONGEST_NAME, MOST_CONDITIONS, MOST_FILTERS};
pub use rating::{Rating, rating_of};
pub use read_file::read_policy;

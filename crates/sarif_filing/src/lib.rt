//! The numbers of the entries of the suppression file of `sarif_gate`, filed by the most specific condition of each, so
//! that a result is compared only with entries that may match it.
#![tactic(auto)]

mod numbers;
mod prefixes;
mod snippets;
mod table;

pub use prefixes::PrefixTable;
pub use table::Table;

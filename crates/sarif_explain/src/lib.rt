//! What `--explain` says about an error: where it is in its source, what was found there, what is expected, and
//! what to do.
#![tactic(auto)]

mod advice;
mod argument;
mod checks;
mod diff;
mod entry;
mod explaining;
mod fitting;
mod form;
mod hint;
mod lines;
mod mismatch;
mod output;
mod past_table;
mod place;
mod pointer;
mod policy;
mod policy_wanted;
mod run;
mod single;
mod wanted;
mod whole;

pub use argument::argument_explanation;
pub use diff::diff_explanation;
pub use explaining::{FaultSource, explanation};
pub use output::{is_past_limit, output_explanation};

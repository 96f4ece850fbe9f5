//! What the merged log is made of: results matched, with their states, what is reported of them and what is kept for
//! later merges.
#![tactic(auto)]

mod asked;
mod baselines;
mod changes;
mod choosing;
mod copies;
mod file_read;
mod halves;
mod impacts;
mod keeping;
mod left;
mod leftover;
mod leftovers;
mod limiting;
mod marking;
mod matched;
mod once;
mod outside;
mod pairing;
mod parts_of_runs;
mod preparing;
mod reporting;
mod ruled;
mod ruling;
mod run_parts;
mod snippets;
mod telling;
mod told;
mod unused;
mod woven;

pub use asked::Asked;
pub use choosing::prepare_by;
pub use file_read::FileRead;
pub use once::prepare_once;
pub use preparing::prepare;
pub use unused::mark_entries;

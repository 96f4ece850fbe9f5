//! Judging results: the record of each result or its first error, and its draft, made by workers.
#![tactic(auto)]

mod chunk;
mod first_fault;
mod judged;
mod judged_result;
mod judging;
mod outcomes;
mod shard;
mod team;

pub use judged::judge_runs;
pub use outcomes::judge;
pub use sarif_gather::{Gate, NoGate};
pub use team::Team;

//! The gate for one change: which results of a merged log are inside of it, and what the gate and the summary say.
#![tactic(auto)]

mod artifacts;
mod facts;
mod files;
mod gate;
mod gated;
mod hits;
mod laws;
mod summary;
mod told;

pub use artifacts::artifacts_in;
pub use facts::{ChangeFacts, scope_name};
pub use gate::gate_value_of_change;
pub use gated::{GatedChange, read_change};
pub use hits::{hits_inside, verdict_inside};
pub use laws::{
    facts_say_what_is_inside, hits_are_inside_or_outside, no_false_pass,
    nothing_changes_without_a_change,
};
pub use summary::{counts_table, summary_of_change};
pub use told::{gate_value_told, hits_told, outside_told, summary_told, verdict_told};

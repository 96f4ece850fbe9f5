//! The number of results in a merged log by baseline state, level and suppression; the verdict of the gate on these
//! counts, and how both are written. Also what a merge makes for later merges, with its numbers.
#![tactic(auto)]

mod counts;
mod decision;
mod gate;
mod gate_verdict;
mod life;
mod suppressing;
mod table;
mod tally;

pub use counts::Counts;
pub use decision::{hits, verdict};
pub use gate::{counts_value, gate_value};
pub use gate_verdict::{Impact, Verdict};
pub use life::{KnownLog, Life, NewFile};
pub use suppressing::is_suppressing;
pub use table::summary;

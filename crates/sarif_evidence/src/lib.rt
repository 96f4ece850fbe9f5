//! What matching sees of a result in each version, the baseline state of a result, and when there is evidence that two
//! results are the same.
#![tactic(auto)]

mod evidence;
mod seeing;
mod sharing;
mod shown;
mod states;
mod version;

pub use evidence::{are_same_packed, has_evidence};
pub use seeing::{is_filled, packed, seen};
pub use shown::as_matched;
pub use states::{state, state_in};
pub use version::MatchingVersion;

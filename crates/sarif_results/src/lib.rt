//! A result until it is written: its draft, and its outcome.
#![tactic(auto)]

mod annotate;
mod draft;
mod judged;
mod outcome;

pub use draft::{Draft, draft_absent, draft_current, into_members};
pub use judged::Judged;
pub use outcome::Outcome;

//! What tests of the merge share: logs in few words, the inputs of a merge, and checks of its result. A list of runs is
//! written `lint: A M; b: `. Each run is a tool and its results; each result is a name or its JSON without spaces.
#![tactic(auto)]

mod given;
mod merging;
mod reading;
mod runs;
mod wanted;

pub use given::{Bytes, Given, ZEROS, beside, one_log, seed_of};
pub use merging::{expect_log, expect_runs, merge, merge_watched};
pub use reading::{Texts, merge_texts, options_by, readers_of};
pub use runs::{json_of_runs, log_of, log_with};
pub use wanted::{ExpectedCounts, NOTHING};

//! Which results of a merge are new: current results are paired with those of a baseline, tier by tier. `whole.rt`
//! has the calls that the merge doesn't make.
#![tactic(auto)]

mod finer_keys;
mod finer_tiers;
mod group;
mod keys;
mod matching;
mod named;
mod numbers;
mod pairing;
mod progress;
mod queues;
mod seeing;
mod shortening;
mod side;
mod tier;
mod tier_key;
mod tier_list;
mod whole;

pub use group::Group;
pub use matching::{Matching, match_all_in, match_all_with};
pub use tier::Tier;
pub use tier_key::Key;
pub use tier_list::tiers;
pub use whole::{key, match_all, see};

//! Sharing work among threads: each call gives a function the elements of a list, in at most as many threads as it may
//! use, and returns what the function returned, in order.
#![tactic(auto)]

mod sharing;

pub use sharing::{Sharing, each_of, join_lists, share_each, share_jobs, share_parts};

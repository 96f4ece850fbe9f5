//! What tests of the command line share: arguments on one line, the request that is read from them, and the message
//! about invalid ones.
#![tactic(auto)]

mod reading;

pub use reading::{accepted, expect_usage, plain, read, usage_in};

//! What tests of a run of the program share: readers that return strings and may fail, writers that accept a limited
//! number of bytes, and a run over them.
#![tactic(auto)]

mod running;

pub use running::{AMPLE, Ended, GivenBytes, Narrow, Rooms, Setting, plain_request, run_over};

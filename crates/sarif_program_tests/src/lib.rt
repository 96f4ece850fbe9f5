//! Tests of what one run of the program does, through what `sarif_program` makes public. They are in a separate
//! crate, so that it is not proved a second time for its tests.
#![tactic(auto)]

#[cfg(test)]
mod running;

//! Tests of what one run of the program writes for later merges. They are in a separate crate, so that the library isn't
//! proved a second time for its tests.
#![tactic(auto)]

#[cfg(test)]
mod upkeep;

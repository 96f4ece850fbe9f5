//! Tests of the security severity of results of runs. They are in a separate crate, so that the library isn't proved a
//! second time for its tests.
#![tactic(auto)]

#[cfg(test)]
mod rating;

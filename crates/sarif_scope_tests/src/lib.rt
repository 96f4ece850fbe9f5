//! Tests of the gate for one change. They are in a separate crate, so that the library isn't proved a second time for
//! its tests.
#![tactic(auto)]

#[cfg(test)]
mod gate;
#[cfg(test)]
mod reading;

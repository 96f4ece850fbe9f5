//! Tests of marking the results that are outside of a change. They are in a separate crate, so that the library isn't
//! proved a second time for its tests.
#![tactic(auto)]

#[cfg(test)]
mod marked;
#[cfg(test)]
mod marking;
#[cfg(test)]
mod reading;

//! Tests of what is outside of a change. They are in a separate crate, so that the library isn't proved a second time for
//! its tests.
#![tactic(auto)]

#[cfg(test)]
mod paths;
#[cfg(test)]
mod places;
#[cfg(test)]
mod reading;
#[cfg(test)]
mod told;

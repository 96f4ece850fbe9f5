//! Tests of what a diff changes. They are in a separate crate, so that the library isn't proved a second time for its
//! tests.
#![tactic(auto)]

#[cfg(test)]
mod faults;
#[cfg(test)]
mod lines;
#[cfg(test)]
mod names;
#[cfg(test)]
mod pieces;
#[cfg(test)]
mod told;

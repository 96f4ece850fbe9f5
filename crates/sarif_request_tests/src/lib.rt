//! Tests of the command line. They are in a separate crate, so that the library isn't proved a second time for its
//! tests.
#![tactic(auto)]

#[cfg(test)]
mod asking;
#[cfg(test)]
mod linking;
#[cfg(test)]
mod policies;
#[cfg(test)]
mod terminal;

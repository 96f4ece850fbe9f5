//! Tests of policy files. They are in a separate crate, so that the library isn't proved a second time for its tests.
#![tactic(auto)]

#[cfg(test)]
mod faults;
#[cfg(test)]
mod filters;
#[cfg(test)]
mod severity;

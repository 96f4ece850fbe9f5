//! Tests of addresses and templates. They are in a separate crate, so that the library isn't proved a second time for
//! its tests.
#![tactic(auto)]

#[cfg(test)]
mod addresses;
#[cfg(test)]
mod places;
#[cfg(test)]
mod templates;

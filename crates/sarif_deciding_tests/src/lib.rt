//! Tests of what a policy decides about the results of a log. They are in a separate crate, so that the library isn't
//! proved a second time for its tests.
#![tactic(auto)]

#[cfg(test)]
mod decided;
#[cfg(test)]
mod deciding;

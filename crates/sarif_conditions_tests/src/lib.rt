//! Tests of what the conditions of a policy decide, and of what the gate says about it. They are in a separate crate,
//! so that the library isn't proved a second time for its tests.
#![tactic(auto)]

#[cfg(test)]
mod changes;
#[cfg(test)]
mod filters;
#[cfg(test)]
mod gate;
#[cfg(test)]
mod impacts;
#[cfg(test)]
mod limits;
#[cfg(test)]
mod ratchets;
#[cfg(test)]
mod ratings;
#[cfg(test)]
mod told;

//! Tests of the names of the model, of counts, the gate and the summary, and of reading sources and writing outputs. They
//! are in a separate crate, so that no library is proved a second time for its tests.
#![tactic(auto)]

#[cfg(test)]
mod counting;
#[cfg(test)]
mod faults;
#[cfg(test)]
mod kinds;
#[cfg(test)]
mod streams;

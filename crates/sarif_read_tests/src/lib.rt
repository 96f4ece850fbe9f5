//! Tests of reading: the index of JSON, its values, and logs. They are in a separate crate, so that no library is
//! proved a second time for its tests.
#![tactic(auto)]

#[cfg(test)]
mod indexes;
#[cfg(test)]
mod records;
#[cfg(test)]
mod texts;

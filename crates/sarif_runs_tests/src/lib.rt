//! Tests of reading a result's own members, and of opening runs: rules, levels, places and regions of results. They are
//! in a separate crate, so that no library is proved a second time for its tests.
#![tactic(auto)]

#[cfg(test)]
mod own_members;
#[cfg(test)]
mod regions;
#[cfg(test)]
mod rules;

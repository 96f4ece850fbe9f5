//! Tests of what scripts over the program don't see of merges: the log that is assembled from no runs, that a merge from
//! bytes, one from readers and one without copies can succeed, that the number of workers and the seed of the tables
//! change no merged log, and that workers overlap. Their expected values were computed by hand. They are in a separate
//! crate, so that no library is proved a second time for its tests.
#![tactic(auto)]

#[cfg(test)]
mod assembling;
#[cfg(test)]
mod copies;
#[cfg(test)]
mod one_log;
#[cfg(test)]
mod seeds;
#[cfg(test)]
mod workers;

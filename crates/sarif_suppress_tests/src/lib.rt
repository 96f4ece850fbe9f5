//! Tests of suppression files that no merge shows: own suppressions that a merge rejects, marks, no file, a date that the
//! command line rejects, the kinds of an entry's conditions, and entries with `max`. Scripts over the program have the other rows. They are in
//! a separate crate, so that no library is proved a second time for its tests.
#![tactic(auto)]

#[cfg(test)]
mod kinds;
#[cfg(test)]
mod limits;
#[cfg(test)]
mod suppressions;

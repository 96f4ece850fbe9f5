//! Tests of findings and of the page that no merge can show, since it rejects the log or has no such option, and of the
//! reports of a gate with a policy. Scripts over the program have the other rows of reports. They are in a separate crate, so that no library is proved a second time for
//! its tests.
#![tactic(auto)]

#[cfg(test)]
mod code;
#[cfg(test)]
mod findings;
#[cfg(test)]
mod pages;
#[cfg(test)]
mod policies;

//! Tests of what no clause of judging can say. They are in a separate crate, so that judging isn't proved a second time
//! for them.
#![tactic(auto)]

#[cfg(test)]
mod room;

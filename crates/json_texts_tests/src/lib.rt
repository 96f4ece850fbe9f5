//! Tests of JSON that is written from tokens.
#![tactic(auto)]

#[cfg(test)]
mod objects;
#[cfg(test)]
mod rows;

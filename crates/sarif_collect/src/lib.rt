//! A collector puts the numbered pieces of a work's runs together again, in any order of arrival.
//! `whole.rt` has the call for a whole list of arrivals, which the merge doesn't make.
#![tactic(auto)]

mod collector;
pub mod laws;
mod lists;
mod numbered;
mod piece;
mod slot;
mod whole;

pub use collector::Collector;
pub use lists::Lists;
pub use piece::{Parcel, Piece, Refused, Why};
pub use whole::{CollectFault, collect};

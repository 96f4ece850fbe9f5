//! Links in reports: which strings are addresses, and the address of a place by a template.
#![tactic(auto)]

mod address;
mod laws;
mod path;
mod template;

pub use address::is_address;
pub use laws::{addresses_have_their_characters, paths_are_read_back, places_link_to_addresses};
pub use template::{Template, place_address};

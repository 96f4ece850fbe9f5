//! Which results a change is about: the file that a URI may be, and whether the places of a result meet the change.
#![tactic(auto)]

mod artifacts;
mod changed;
mod file;
mod found;
mod index;
mod joining;
mod keys;
mod known;
mod laws;
mod lines;
mod next;
mod once;
mod parts;
mod spots;
mod tree;
mod uri;

pub use artifacts::KnownArtifacts;
pub use changed::Changed;
pub use known::KnownPath;
pub use laws::{inside_by_lines_is_inside_by_files, what_is_inside_stays_inside};
pub use spots::{ArtifactName, NamedPlace, NamedPlaces, Scope, Spot, Spots};

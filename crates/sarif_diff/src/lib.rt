//! What a unified diff changes: its files and their changed lines, or the first error with its line.
#![tactic(auto)]

mod diff;
mod draft;
mod fault;
mod header;
mod hunk;
mod hunk_lines;
mod lines;
mod name;
mod names;
mod pieces;
mod quoted;
mod reading;
mod section;
mod submodules;
mod words;

pub use diff::read_sections;
pub use fault::{DiffFault, LineFault};
pub use name::Name;
pub use pieces::cut_piece;
pub use section::{Change, Section, Span};

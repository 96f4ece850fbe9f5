//! JSON that is written from the tokens of an index and not from values: all of a value, or what stripping leaves.
#![tactic(auto)]

mod around;
mod fraction;
mod laws;
mod sorting;
mod walking;
mod writing;

pub use around::{SetMember, text_around};
pub use laws::{stripped_as_values, stripped_later, what_is_written_is_read_again};
pub use writing::{node_text, push_node, write_node};

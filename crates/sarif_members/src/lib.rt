//! What a result says in its own members, checked and read.
#![tactic(auto)]

mod laws;
pub mod node_members;
mod own_members;
mod parts;
mod passing;
mod result_node;

pub use laws::same_members_give_the_same_pairs;
pub use own_members::{is_node_absent, read_members, read_node_members};
pub use parts::Parts;

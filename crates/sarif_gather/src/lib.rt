//! Many workers read the runs of a work; one collector puts the numbered results together again.
#![tactic(auto)]

mod gathering;
mod work;

pub use gathering::{GatherFault, gather};
pub use sarif_collect::Lists;
pub use work::{Gate, NoGate, Work};

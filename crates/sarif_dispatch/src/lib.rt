//! What passes between threads that work together: a deal gives each run to one of its hands, once, and a mailbox
//! carries parcels from many senders to one taker.
#![tactic(auto)]

mod deal;
mod mailbox;

pub use deal::{Deal, Hand};
pub use mailbox::{Desk, Full, Mailbox, Post, Settled};

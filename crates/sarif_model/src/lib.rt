//! The vocabulary of a merge: kinds, strings and sequences, places, records, errors and their places.
#![tactic(auto)]

mod driver;
mod fault;
mod first_location;
mod guid;
mod kinds;
mod limits;
pub mod members;
mod merge_fault;
mod message;
mod place;
mod record;
mod references;
mod refusal;
mod region;
mod sequence;
mod source_kind;
mod text;
mod white_space;

pub use driver::driver_name;
pub use fault::Fault;
pub use first_location::FirstLocation;
pub use guid::read_guid;
pub use kinds::{Kind, Level, State, Status};
pub use limits::{
    FIRST_DAY, LAST_DAY, MOST_BYTES, MOST_ENTRIES, MOST_RESULTS, MOST_RUNS, MOST_SOURCES,
    MOST_WORKERS,
};
pub use merge_fault::{At, Cause, MergeFault, Source};
pub use message::Message;
pub use place::Place;
pub use record::Record;
pub use references::{MessageReference, RuleReference};
pub use refusal::Refusal;
pub use region::Region;
pub use sequence::{Pairs, Sequence};
pub use source_kind::SourceKind;
pub use text::{Text, copy_if_there};
pub use white_space::is_white_space;

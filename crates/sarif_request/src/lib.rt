//! The request of one run of `sarif_gate`, and how the arguments of its command line are read.
#![tactic(auto)]

mod clash;
mod command;
mod expected;
mod laws;
mod listing;
mod option_rows;
mod repeated;
mod request;
mod scoping;
mod showing;
mod terminal;
mod together;
mod wanted;
mod words;

pub use laws::{
    expiry_dates_are_not_past, policies_replace_options, requested_renewals_are_sound,
    requests_stay_off_a_terminal,
};
pub use request::Request;
pub use terminal::{TerminalFacts, at_terminal};
pub use wanted::RequestedOutput;
pub use words::{WordsFault, plain_words, read_words};

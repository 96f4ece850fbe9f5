//! What a merge makes for later merges: the new suppression file, the list of unused entries and the known log.
#![tactic(auto)]

mod accepting;
mod hiding;
mod knowing;
mod laws;
mod leaving;
mod life;
mod matched;
mod others;
mod renewing;
mod showing;
mod staying;
mod used;

pub use laws::{
    a_change_is_for_accepting_alone, accepting_is_of_all_without_a_change,
    accepting_with_a_change_is_choosing,
};
pub use life::life_of;
pub use matched::{Before, Current, Matched};

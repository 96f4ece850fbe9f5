//! Examples whose results were computed by hand, and what no contract can say: that threads overlap, the bound on the
//! parcels that wait, and which worker gets which run.
mod collecting;
mod dealing;
mod gathering;
mod mailing;
mod sharing;

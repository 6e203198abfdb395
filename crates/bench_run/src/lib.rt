// A run of the bench program by document 01: how far it goes, what ends it, and the bytes that it keeps from one turn to the
// next. Its specs say what a whole run writes; the turn itself stands above, in `bench_turn`.
#![tactic(auto)]

mod ending;
mod limit;
mod replies;
mod rest;

pub use ending::{Ending, Leftover, closing};
pub use limit::complete;
pub use replies::last_reply;
pub use rest::keep_rest;

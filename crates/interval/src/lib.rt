// Bare intervals by value, under inari's names: made from two ends that were judged, taken apart, and asked about. They stand
// on two ends (`end_pairs`) and their class (`classify`).
#![tactic(auto)]

mod bare;
mod form;
mod types;

pub use form::Form;
pub use types::Interval;

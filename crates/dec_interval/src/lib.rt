// Decorated intervals by value, under inari's names: made from their parts, taken apart, and asked about. They stand on bare
// intervals (`interval`) and on what goes with two ends (`decorations`).
#![tactic(auto)]

mod decorated;
mod made;
mod parts;
mod types;

pub use made::canonical_dec;
pub use types::DecInterval;

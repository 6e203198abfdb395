// The point functions whose results are whole numbers, on one finite bit pattern. They stand on definitions and on the order of
// ends (`end_pairs`).
#![tactic(auto)]

mod functions;
mod magnitudes;
mod split;

pub use functions::{Function, has_half, mirrored, value_at};
pub use split::ONE;

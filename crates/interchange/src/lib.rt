// Interchange bytes of intervals by value, big and little endian, as arrays. They stand on intervals in lent bytes
// (`lent_intervals`).
#![tactic(auto)]

pub mod bare;
mod bytes;
pub mod decorated;

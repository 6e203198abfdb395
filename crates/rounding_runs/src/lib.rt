// The three roundings by their operation, and the judging of stored cases. They stand on `sums`, `products` and `quotients`.
#![tactic(auto)]

pub mod cases;
pub mod roundings;
mod words;

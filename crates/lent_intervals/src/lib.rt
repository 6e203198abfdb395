// Intervals in lent bytes, big and little endian: what every call reads and writes. They stand on the bytes of two ends
// (`ends_in_bytes`) and on intervals by value, and judge what they read.
#![tactic(auto)]

mod canonical;
mod in_bytes;
mod taken_apart;

pub use in_bytes::{BARE, DECORATED, InBytes};

// The bytes of two ends in either byte order, in lent bytes. It stands on two ends by value (`end_pairs`) and knows no interval.
#![tactic(auto)]

mod digits;
mod ends;

pub use digits::ByteOrder;
pub use ends::{read_ends, write_ends};

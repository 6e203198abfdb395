// The absolute value of a bare interval, and the maximum and the minimum of two, by their ends, which were judged already. It
// stands on the order of ends (`end_pairs`), their classes (`classify`) and the hull of a union (`set_op`).
#![tactic(auto)]

mod bare;

pub use bare::{abs_of, max_of, min_of};

// The hull of the union, and the intersection, of two bare intervals, by their ends, which were judged already. They stand on
// the order of ends (`end_pairs`).
#![tactic(auto)]

mod bare;

pub use bare::{convex_hull_of, intersection_of};

// The comparisons of two intervals that were judged already, by name. They stand on two ends (`end_pairs`), and on the laws that an order of
// ends is a statement about members (`comparison_laws`).
#![tactic(auto)]

mod comparisons;
mod strict;
mod weak;

pub use comparisons::{compares, compares_dec};

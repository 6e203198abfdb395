// Two ends by value, before and after they are judged: their order, which of them are an interval's, and their zeros and signs.
// It stands on definitions alone, and every interval stands on it.
#![tactic(auto)]

mod mirror;
mod order;
mod questions;
mod tests;
mod types;
mod zeros;

pub use mirror::{mirrored, opposite, outward};
pub use order::{greater, key, less_or_equal, lesser};
pub use questions::{holds_all, is_point};
pub use tests::{
    are_nans, either_empty, has_ends, is_bare, is_bounded, is_empty_pair, is_finite, is_proper,
};
pub use types::{EndPair, INFINITY, MINUS_INFINITY, PLUS_ZERO, QUIET_NAN, SIGN};
pub use zeros::canonical;

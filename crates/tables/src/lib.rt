// The crate's class tables: what the kinds or classes of two operands choose, before anything is worked out. They call nothing,
// and stand on the kinds and corners that theorem 3 speaks of.
#![tactic(auto)]

mod product;
mod quotient;

pub use product::product_corner;
pub use quotient::quotient_corner;

// Upper ends of sums, products and quotients, rounded upward, whether they are exact, and what a divisor says of a quotient; a lower end
// is the upper end of the mirror image, negated. It stands on the three roundings and on the corners that a table chooses.
#![tactic(auto)]

mod ends;
mod exact;
mod product;
mod quotient;
mod quotient_decoration;

pub use ends::sum_end;
pub use exact::{product_is_exact_at, quotient_is_exact_at, sum_is_exact};
pub use product::product_at;
pub use quotient::quotient_at;
pub use quotient_decoration::divided_decoration;

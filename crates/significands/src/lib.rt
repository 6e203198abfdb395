// What the roundings of sums, products and quotients share: significands of full length, signed exponents, brackets for doubles, and the
// sign of an answer. It stands on packing, whose function brings significands to full length.
#![tactic(auto)]

pub mod bracket;
pub mod double;
pub mod exponent;
pub mod normal;
pub mod rounded;
pub mod sign;
pub mod units;

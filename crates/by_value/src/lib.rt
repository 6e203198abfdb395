// The operations on intervals passed by value, bare or decorated, under the names of the crate and in files that are named after its
// own, but for those of integer.rs and boolean.rs, which are crates of their own. Every function takes any value of either form and refuses
// what is no interval, with 5 or 6 and the place. A decorated answer is NaI if an operand is.
#![tactic(auto)]

pub mod absmax_by_value;
pub mod arith_by_value;
pub mod set_op_by_value;

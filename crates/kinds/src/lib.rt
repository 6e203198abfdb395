// What the class of one operand says of a product or a quotient, before the tables are asked. It stands on classes
// (`classify`) and on the kinds that theorem 3 speaks of.
#![tactic(auto)]

mod divisor;
mod kind;

pub use divisor::{allowed, is_zero};
pub use kind::{kind_of, mirrored_kind};

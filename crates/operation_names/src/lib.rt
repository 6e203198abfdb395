// The names of the operations whose answer is an interval and of the comparisons, and the operation with a number. It stands on
// definitions, on why a call is refused (`refusals`), and on the names of the whole-number functions (`wholes`).
#![tactic(auto)]

mod arithmetic;
mod names;
mod numbers;

pub use names::{Arithmetic, Binary, Comparison, Unary};
pub use numbers::{Asked, AskedExact};

// The arithmetic operations that report exactness, by number: those of `by_value`.
#![tactic(auto)]

use by_value::arith_by_value::{add_exact, div_exact, mul_exact, neg_exact, sub_exact};
use exact_operations::ExactInterval;
use interval::Interval;
use operation_names::{Arithmetic, AskedExact};
use refusals::Refusal;
use value_records::replies::Answer;
use value_records::values::Operand;

// Each name has its function in an arm, as by value.
fn two(o: Arithmetic, x: Interval, y: Interval) -> Result<ExactInterval, Refusal> {
    match o {
        Arithmetic::Add => add_exact(x, y),
        Arithmetic::Sub => sub_exact(x, y),
        Arithmetic::Mul => mul_exact(x, y),
        Arithmetic::Div => div_exact(x, y),
    }
}

// The answer of the operation with a number.
pub fn call(number: u8, first: Operand, second: Operand) -> Result<Answer, Refusal> {
    let x = first.bare();
    let z = match AskedExact::try_from(number)? {
        AskedExact::Neg => neg_exact(x)?,
        AskedExact::Two(o) => two(o, x, second.bare())?,
    };
    Ok(Answer::from(z))
}

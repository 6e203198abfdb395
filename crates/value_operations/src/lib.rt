// The operations on intervals of either form, by number: those of `by_value` and the crates beside it, or of `judged` by their names, and
// overlap, which has no name.
#![tactic(auto)]

mod passed;

use by_value::absmax_by_value::{abs, max, min};
use by_value::arith_by_value::{add, div, mul, neg, sub};
use by_value::set_op_by_value::{convex_hull, intersection};
use by_value_boolean::{
    disjoint, eq, interior, less, precedes, strict_less, strict_precedes, subset,
};
use by_value_integer::{ceil, floor, round, round_ties_even, sign, trunc};
use operands::Operand;
use operation_names::{Asked, Binary, Comparison, Unary};
pub use passed::Passed;
use refusals::Refusal;
use value_records::replies::Answer;
use value_records::values;
use wholes::Function;

fn whole<T: Operand>(f: Function, x: T) -> Result<T, Refusal> {
    match f {
        Function::Ceil => ceil(x),
        Function::Floor => floor(x),
        Function::Round => round(x),
        Function::RoundTiesEven => round_ties_even(x),
        Function::Sign => sign(x),
        Function::Trunc => trunc(x),
    }
}

// `by_name` says which of two public ways to the answer is tried. A closure for each way would be written out at each of four calls. Below,
// each name has its function in an arm: a table of pointers would be longer.
fn one<T: Operand>(f: Unary, by_name: bool, x: T) -> Result<T, Refusal> {
    if by_name {
        return judged::one(f, x);
    }
    match f {
        Unary::Neg => neg(x),
        Unary::Abs => abs(x),
        Unary::Whole(w) => whole(w, x),
    }
}

fn two<T: Operand>(o: Binary, by_name: bool, x: T, y: T) -> Result<T, Refusal> {
    if by_name {
        return judged::two(o, x, y);
    }
    match o {
        Binary::Add => add(x, y),
        Binary::Sub => sub(x, y),
        Binary::Mul => mul(x, y),
        Binary::Div => div(x, y),
        Binary::ConvexHull => convex_hull(x, y),
        Binary::Intersection => intersection(x, y),
        Binary::Max => max(x, y),
        Binary::Min => min(x, y),
    }
}

fn comparison<T: Operand>(c: Comparison, by_name: bool, x: T, y: T) -> Result<bool, Refusal> {
    if by_name {
        return judged::compare(c, x, y);
    }
    match c {
        Comparison::Equal => eq(x, y),
        Comparison::Subset => subset(x, y),
        Comparison::Interior => interior(x, y),
        Comparison::Disjoint => disjoint(x, y),
        Comparison::Less => less(x, y),
        Comparison::StrictLess => strict_less(x, y),
        Comparison::Precedes => precedes(x, y),
        Comparison::StrictPrecedes => strict_precedes(x, y),
    }
}

// Both operands, of which the first is looked at before the second.
fn both<T: Passed>(first: values::Operand, second: values::Operand) -> Result<(T, T), Refusal> {
    let x = T::passed(first)?;
    let y = T::passed(second).map_err(Refusal::second)?;
    Ok((x, y))
}

// The answer of the operation with a number.
pub fn call<T: Passed>(
    number: u8,
    by_name: bool,
    first: values::Operand,
    second: values::Operand,
) -> Result<Answer, Refusal> {
    match Asked::try_from(number)? {
        Asked::One(f) => Ok(one(f, by_name, T::passed(first)?)?.answer()),
        Asked::Two(o) => {
            let (x, y) = both::<T>(first, second)?;
            Ok(two(o, by_name, x, y)?.answer())
        }
        Asked::Overlap => {
            let (x, y) = both::<T>(first, second)?;
            Ok(Answer::from(T::overlap(x, y)?))
        }
        Asked::Comparison(c) => {
            let (x, y) = both::<T>(first, second)?;
            Ok(Answer::from(comparison(c, by_name, x, y)?))
        }
    }
}

// The operations on two finite doubles, by name.
ghost use Rattle.truth.specs.Answers.{Answers};
ghost use Rattle.patterns.specs.Format.{binary64};
ghost use Rattle.patterns.specs.Rounding.{Up};
ghost use Rattle.patterns.specs.Value.{Finite};
ghost use Rattle.rounding_runs.specs.Operations.{SecondOf, Takes, exact_of};
ghost use Rattle.rounding_runs.specs.Cases.{Numbered};

use end_pairs::is_finite;
use products::mul_ru;
use quotients::div_ru;
use significands::double::SIGN;
use sums::add_ru;

// The operations, with document 01's numbers.
#[derive(Clone, Copy)]
pub enum Operation {
    Sum = 2,
    Product = 4,
    Quotient = 5,
}

// A number that no operation has.
#[derive(Clone, Copy)]
pub struct UnknownOperation;

impl TryFrom<u8> for Operation {
    type Error = UnknownOperation;

    ghost try_from_gives = { Numbered };

    fn try_from(number: u8) -> Result<Operation, UnknownOperation> {
        match number {
            2 => Ok(Operation::Sum),
            4 => Ok(Operation::Product),
            5 => Ok(Operation::Quotient),
            _ => Err(UnknownOperation),
        }
    }
}

// Whether the second operand is none that the operation leaves out: a quotient's divisor is not 0.
fn takes_second(o: Operation, b: u64) -> bool
    ensures { Answers (SecondOf o b) result }
{
    match o {
        Operation::Sum | Operation::Product => true,
        Operation::Quotient => b % SIGN != 0,
    }
}

// Whether both operands are finite.
fn are_finite(a: u64, b: u64) -> bool
    ensures { Answers (Finite binary64 a × Finite binary64 b) result }
{
    is_finite(a) && is_finite(b)
}

// Whether the operation takes the two operands.
pub fn takes(o: Operation, a: u64, b: u64) -> bool
    ensures { Answers (Takes o a b) result }
{
    are_finite(a, b) && takes_second(o, b)
}

// The exact result rounded upward. Each name has its function in an arm: a table of pointers would lose their clauses.
pub fn rounded(o: Operation, a: u64, b: u64) -> u64
    requires { Takes o a b }
    ensures { Up binary64 (exact_of o a b) result }
{
    match o {
        Operation::Sum => add_ru(a, b).pattern,
        Operation::Product => mul_ru(a, b).pattern,
        Operation::Quotient => div_ru(a, b).pattern,
    }
}

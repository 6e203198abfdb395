// The functions by name, on patterns with a sign.
ghost use Rattle.std.specs.Prelude.{◌<◌};
ghost use Rattle.patterns.specs.Format.{binary64, infinity};
ghost use Rattle.patterns.specs.Value.{Finite};
ghost use Rattle.meaning.specs.Fraction.{◌⊕◌, half, Whole};
ghost use Rattle.meaning.specs.Pairs.{worth};
ghost use Rattle.points.specs.Functions.{Mirrors};
ghost use Rattle.truth.specs.Answers.{Answers};
ghost use Rattle.wholes.specs.Made.{operation, Made, MadeMagnitude, NegativeOf};

use crate::magnitudes::{downward, nearest, nearest_even, sign_of, upward};
use crate::split::split;
use end_pairs::SIGN;

#[derive(Clone, Copy)]
pub enum Function {
    Ceil,
    Floor,
    Round,
    RoundTiesEven,
    Sign,
    Trunc,
}

// The function that makes the negative of the result from the negative operand.
pub fn mirrored(f: Function) -> Function
    ensures { Mirrors (operation f) (operation result) }
{
    match f {
        Function::Ceil => Function::Floor,
        Function::Floor => Function::Ceil,
        Function::Round | Function::RoundTiesEven | Function::Sign | Function::Trunc => f,
    }
}

// Each name has its function in an arm: a table of pointers would lose their clauses.
fn value_at_magnitude(f: Function, m: u64) -> u64
    requires { m < infinity binary64 }
    ensures { MadeMagnitude binary64 (operation f) m result }
{
    match f {
        Function::Ceil => upward(m),
        Function::Floor | Function::Trunc => downward(m),
        Function::Round => nearest(m),
        Function::RoundTiesEven => nearest_even(m),
        Function::Sign => sign_of(m),
    }
}

// The negative of a magnitude, and +0.0 for 0.
fn negative(m: u64) -> u64
    requires { m < infinity binary64 }
    ensures { NegativeOf binary64 m result }
{
    if m == 0 {
        return 0;
    }
    SIGN + m
}

// The function's value at a finite number. A zero is answered as +0.0.
pub fn value_at(f: Function, b: u64) -> u64
    requires { Finite binary64 b }
    ensures { Made binary64 (operation f) b result }
{
    if b < SIGN {
        return value_at_magnitude(f, b);
    }
    negative(value_at_magnitude(mirrored(f), b - SIGN))
}

// Whether a finite number has fractional part one half.
pub fn has_half(b: u64) -> bool
    requires { Finite binary64 b }
    ensures { Answers (Whole (worth binary64 b ⊕ half)) result }
{
    split(b % SIGN).is_some_and(|n| n.side.is_eq())
}

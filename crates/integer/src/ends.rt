// The upper end of a function's results. Every function here rises, so it comes from the operand's upper end.
ghost use Rattle.patterns.specs.Format.{binary64, infinity};
ghost use Rattle.wholes.specs.Made.{operation};
ghost use Rattle.integer.specs.Rising.{Upper, UpperMade};

use end_pairs::INFINITY;
use wholes::{Function, ONE, value_at};

// The upper end of the results where the operand has none.
fn end_of_none(f: Function) -> u64
    ensures { UpperMade binary64 (operation f) (infinity binary64) result }
{
    match f {
        Function::Sign => ONE,
        Function::Ceil
        | Function::Floor
        | Function::Round
        | Function::RoundTiesEven
        | Function::Trunc => INFINITY,
    }
}

pub fn upper_end(f: Function, b: u64) -> u64
    requires { Upper binary64 b }
    ensures { UpperMade binary64 (operation f) b result }
{
    if b == INFINITY {
        return end_of_none(f);
    }
    value_at(f, b)
}

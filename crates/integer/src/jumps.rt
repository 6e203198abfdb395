// Whether a function jumps within an interval on which it has one result.
ghost use Rattle.patterns.specs.Format.{binary64};
ghost use Rattle.meaning.specs.Sets.{SameEnd};
ghost use Rattle.meaning.specs.Pairs.{Proper, end_of, set_of};
ghost use Rattle.meaning.specs.Decorations.{DacTest};
ghost use Rattle.truth.specs.Answers.{Answers};
ghost use Rattle.end_pairs.specs.EndPairMeaning.{pair_of};
ghost use Rattle.wholes.specs.Made.{operation};
ghost use Rattle.integer.specs.Jumping.{OneSide, HalfAt};

use end_pairs::{EndPair, PLUS_ZERO, is_finite, key};
use wholes::{Function, has_half};

// Whether two lower or two upper ends agree.
fn same_end(a: u64, b: u64) -> bool
    requires { OneSide binary64 a b }
    ensures { Answers (SameEnd (end_of binary64 a) (end_of binary64 b)) result }
{
    key(a) == key(b)
}

// Whether an end has fractional part one half. An infinite end has no fractional part.
fn half_at(b: u64) -> bool
    ensures { Answers (HalfAt (end_of binary64 b)) result }
{
    is_finite(b) && has_half(b)
}

// The test for each function, of the operand `x` and the result `z`: an end is left as it was, has fractional part one half, or is 0.
// It is a table, whose arms are no functions.
pub fn jumps(f: Function, x: EndPair, z: EndPair) -> bool
    requires { Proper binary64 (pair_of x) × Proper binary64 (pair_of z) }
    ensures { Answers (DacTest (operation f) (set_of binary64 (pair_of x)) (set_of binary64 (pair_of z))) result }
{
    match f {
        Function::Ceil => same_end(x.b, z.b),
        Function::Floor => same_end(x.a, z.a),
        Function::Round | Function::RoundTiesEven => half_at(x.a) || half_at(x.b),
        Function::Sign => same_end(x.a, PLUS_ZERO),
        Function::Trunc => same_end(x.a, z.a) || same_end(x.b, z.b),
    }
}

// The operations, by classes and ends.
ghost use Rattle.patterns.specs.Format.{binary64};
ghost use Rattle.meaning.specs.Pairs.{Bare, set_of};
ghost use Rattle.meaning.specs.Points.{abs, max, min};
ghost use Rattle.meaning.specs.Results.{Result₁, Result₂, point};
ghost use Rattle.meaning.specs.Statement.{HullOf};
ghost use Rattle.end_pairs.specs.EndPairMeaning.{pair_of};

use classify::{IntervalClass, classify};
use end_pairs::{
    EndPair, PLUS_ZERO, canonical, either_empty, greater, lesser, mirrored, opposite, outward,
};

// The absolute value of x = [a, b] by its class:
//
//  x  | abs
// ----+------------------
//  E  | ∅
//  M  | [0, max {-a, b}]
//  N* | [-b, -a]
//  P* | [a, b]
//  Z  | [0, 0]
pub fn abs_of(x: EndPair) -> EndPair
    requires { Bare binary64 (pair_of x) }
    ensures { HullOf binary64 (Result₁ abs (set_of binary64 (pair_of x))) (pair_of result) }
{
    match classify(x) {
        IntervalClass::E | IntervalClass::P0 | IntervalClass::P1 | IntervalClass::Z => canonical(x),
        IntervalClass::M => outward(PLUS_ZERO, greater(opposite(x.a), x.b)),
        IntervalClass::N0 | IntervalClass::N1 => canonical(mirrored(x)),
    }
}

// The maximum of two intervals, [max {a, c}, max {b, d}], or EMPTY if an operand is.
// max_of and min_of stay apart: one function over the choice would have to ask of it that the chosen ends are in order.
pub fn max_of(x: EndPair, y: EndPair) -> EndPair
    requires { Bare binary64 (pair_of x) × Bare binary64 (pair_of y) }
    ensures { HullOf binary64 (Result₂ (point max) (set_of binary64 (pair_of x)) (set_of binary64 (pair_of y))) (pair_of result) }
{
    if either_empty(x, y) {
        return EndPair::EMPTY;
    }
    canonical(EndPair {
        a: greater(x.a, y.a),
        b: greater(x.b, y.b),
    })
}

// The minimum of two intervals, [min {a, c}, min {b, d}], or EMPTY if an operand is.
pub fn min_of(x: EndPair, y: EndPair) -> EndPair
    requires { Bare binary64 (pair_of x) × Bare binary64 (pair_of y) }
    ensures { HullOf binary64 (Result₂ (point min) (set_of binary64 (pair_of x)) (set_of binary64 (pair_of y))) (pair_of result) }
{
    if either_empty(x, y) {
        return EndPair::EMPTY;
    }
    canonical(EndPair {
        a: lesser(x.a, y.a),
        b: lesser(x.b, y.b),
    })
}

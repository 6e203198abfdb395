// The operations, by the ends of their operands.
ghost use Rattle.patterns.specs.Format.{binary64};
ghost use Rattle.meaning.specs.Pairs.{Bare, set_of};
ghost use Rattle.meaning.specs.Results.{Result₂, convex_hull, intersection};
ghost use Rattle.meaning.specs.Statement.{HullOf};
ghost use Rattle.end_pairs.specs.EndPairMeaning.{pair_of};

use end_pairs::{EndPair, canonical, either_empty, greater, is_empty_pair, less_or_equal, lesser};

// The tightest interval that contains both operands:
//
//             | y = ∅  | y = [c, d]
// ------------+--------+--------------------------
//  x = ∅      | ∅      | [c, d]
//  x = [a, b] | [a, b] | [min {a, c}, max {b, d}]
pub fn convex_hull_of(x: EndPair, y: EndPair) -> EndPair
    requires { Bare binary64 (pair_of x) × Bare binary64 (pair_of y) }
    ensures { HullOf binary64 (Result₂ convex_hull (set_of binary64 (pair_of x)) (set_of binary64 (pair_of y))) (pair_of result) }
{
    if is_empty_pair(x) {
        return canonical(y);
    }
    if is_empty_pair(y) {
        return canonical(x);
    }
    canonical(EndPair {
        a: lesser(x.a, y.a),
        b: greater(x.b, y.b),
    })
}

// The interval of the members of both operands:
//
//             | y = ∅ | y = [c, d]
// ------------+-------+--------------------------
//  x = ∅      | ∅     | ∅
//  x = [a, b] | ∅     | [max {a, c}, min {b, d}], or ∅ if they lie apart
pub fn intersection_of(x: EndPair, y: EndPair) -> EndPair
    requires { Bare binary64 (pair_of x) × Bare binary64 (pair_of y) }
    ensures { HullOf binary64 (Result₂ intersection (set_of binary64 (pair_of x)) (set_of binary64 (pair_of y))) (pair_of result) }
{
    if either_empty(x, y) {
        return EndPair::EMPTY;
    }
    let a = greater(x.a, y.a);
    let b = lesser(x.b, y.b);
    if less_or_equal(a, b) {
        canonical(EndPair { a, b })
    } else {
        EndPair::EMPTY
    }
}

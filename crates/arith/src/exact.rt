// Which ends of a sum, difference, product or quotient of bare intervals that were judged already are exact. Nothing is rounded here.
ghost use Rattle.patterns.specs.Format.{binary64};
ghost use Rattle.meaning.specs.Pairs.{Bare, set_of};
ghost use Rattle.meaning.specs.Points.{add, sub, mul, div};
ghost use Rattle.meaning.specs.Results.{Result₂, point};
ghost use Rattle.end_pairs.specs.EndPairMeaning.{pair_of};
ghost use Rattle.arith.specs.ExactFor.{ExactFor};

use arith_ends::{product_is_exact_at, quotient_is_exact_at, sum_is_exact};
use classify::classify;
use end_pairs::{EndPair, either_empty, mirrored, opposite};
use kinds::{is_zero, kind_of, mirrored_kind};
use tables::{product_corner, quotient_corner};

// For each end, whether it is the true bound of all results, attained or not. The ends count either way, so that no Option says this.
#[derive(Clone, Copy)]
pub struct Exactness {
    pub lower: bool,
    pub upper: bool,
}

impl Exactness {
    // Both ends, as those of EMPTY.
    pub const BOTH: Exactness = Exactness {
        lower: true,
        upper: true,
    };
}

pub fn sum_exactness(x: EndPair, y: EndPair) -> Exactness
    requires { Bare binary64 (pair_of x) × Bare binary64 (pair_of y) }
    ensures { ExactFor binary64 (Result₂ (point add) (set_of binary64 (pair_of x)) (set_of binary64 (pair_of y))) result }
{
    if either_empty(x, y) {
        return Exactness::BOTH;
    }
    Exactness {
        lower: sum_is_exact(opposite(x.a), opposite(y.a)),
        upper: sum_is_exact(x.b, y.b),
    }
}

// A difference is the sum with the second operand mirrored.
pub fn difference_exactness(x: EndPair, y: EndPair) -> Exactness
    requires { Bare binary64 (pair_of x) × Bare binary64 (pair_of y) }
    ensures { ExactFor binary64 (Result₂ (point sub) (set_of binary64 (pair_of x)) (set_of binary64 (pair_of y))) result }
{
    sum_exactness(x, mirrored(y))
}

// It asks where `mul_of` works out: the corners are chosen in both, since one function for them would need a clause longer than their choice.
pub fn product_exactness(x: EndPair, y: EndPair) -> Exactness
    requires { Bare binary64 (pair_of x) × Bare binary64 (pair_of y) }
    ensures { ExactFor binary64 (Result₂ (point mul) (set_of binary64 (pair_of x)) (set_of binary64 (pair_of y))) result }
{
    if either_empty(x, y) {
        return Exactness::BOTH;
    }
    let m = kind_of(classify(x));
    let n = kind_of(classify(y));
    Exactness {
        lower: product_is_exact_at(product_corner(mirrored_kind(m), n), mirrored(x), y),
        upper: product_is_exact_at(product_corner(m, n), x, y),
    }
}

pub fn quotient_exactness(x: EndPair, y: EndPair) -> Exactness
    requires { Bare binary64 (pair_of x) × Bare binary64 (pair_of y) }
    ensures { ExactFor binary64 (Result₂ (point div) (set_of binary64 (pair_of x)) (set_of binary64 (pair_of y))) result }
{
    if either_empty(x, y) {
        return Exactness::BOTH;
    }
    let k = classify(y);
    if is_zero(k) {
        return Exactness::BOTH;
    }
    let m = kind_of(classify(x));
    Exactness {
        lower: quotient_is_exact_at(quotient_corner(mirrored_kind(m), k), mirrored(x), y),
        upper: quotient_is_exact_at(quotient_corner(m, k), x, y),
    }
}

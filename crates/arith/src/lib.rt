// Negation, sum, difference, product and quotient of bare intervals that were judged already, and which of their ends are exact.
#![tactic(auto)]

ghost use Rattle.patterns.specs.Format.{binary64};
ghost use Rattle.meaning.specs.Pairs.{Bare, set_of};
ghost use Rattle.meaning.specs.Points.{neg, add, sub, mul, div};
ghost use Rattle.meaning.specs.Results.{Result₁, Result₂, point};
ghost use Rattle.meaning.specs.Statement.{HullOf};
ghost use Rattle.end_pairs.specs.EndPairMeaning.{pair_of};

use arith_ends::{product_at, quotient_at, sum_end};
use classify::classify;
use end_pairs::{EndPair, canonical, either_empty, mirrored, opposite, outward};
use kinds::{is_zero, kind_of, mirrored_kind};
use tables::{product_corner, quotient_corner};

mod exact;

pub use exact::{
    Exactness, difference_exactness, product_exactness, quotient_exactness, sum_exactness,
};

// -[a, b] = [-b, -a]
pub fn neg_of(x: EndPair) -> EndPair
    requires { Bare binary64 (pair_of x) }
    ensures { HullOf binary64 (Result₁ neg (set_of binary64 (pair_of x))) (pair_of result) }
{
    canonical(mirrored(x))
}

// [a, b] + [c, d] = [a + c, b + d]
pub fn add_of(x: EndPair, y: EndPair) -> EndPair
    requires { Bare binary64 (pair_of x) × Bare binary64 (pair_of y) }
    ensures { HullOf binary64 (Result₂ (point add) (set_of binary64 (pair_of x)) (set_of binary64 (pair_of y))) (pair_of result) }
{
    if either_empty(x, y) {
        return EndPair::EMPTY;
    }
    outward(sum_end(opposite(x.a), opposite(y.a)), sum_end(x.b, y.b))
}

// [a, b] - [c, d] = [a, b] + [-d, -c]
pub fn sub_of(x: EndPair, y: EndPair) -> EndPair
    requires { Bare binary64 (pair_of x) × Bare binary64 (pair_of y) }
    ensures { HullOf binary64 (Result₂ (point sub) (set_of binary64 (pair_of x)) (set_of binary64 (pair_of y))) (pair_of result) }
{
    add_of(x, mirrored(y))
}

// 0 times an end without bound is 0: [0, 0] * ENTIRE = [0, 0].
pub fn mul_of(x: EndPair, y: EndPair) -> EndPair
    requires { Bare binary64 (pair_of x) × Bare binary64 (pair_of y) }
    ensures { HullOf binary64 (Result₂ (point mul) (set_of binary64 (pair_of x)) (set_of binary64 (pair_of y))) (pair_of result) }
{
    if either_empty(x, y) {
        return EndPair::EMPTY;
    }
    let m = kind_of(classify(x));
    let n = kind_of(classify(y));
    outward(
        product_at(product_corner(mirrored_kind(m), n), mirrored(x), y),
        product_at(product_corner(m, n), x, y),
    )
}

// The quotient by the members of y other than 0. Where there is none it is EMPTY: [-1, 1] / [0, 0].
pub fn div_of(x: EndPair, y: EndPair) -> EndPair
    requires { Bare binary64 (pair_of x) × Bare binary64 (pair_of y) }
    ensures { HullOf binary64 (Result₂ (point div) (set_of binary64 (pair_of x)) (set_of binary64 (pair_of y))) (pair_of result) }
{
    if either_empty(x, y) {
        return EndPair::EMPTY;
    }
    let k = classify(y);
    if is_zero(k) {
        return EndPair::EMPTY;
    }
    let m = kind_of(classify(x));
    outward(
        quotient_at(quotient_corner(mirrored_kind(m), k), mirrored(x), y),
        quotient_at(quotient_corner(m, k), x, y),
    )
}

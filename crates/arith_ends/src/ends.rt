// Two ends combined and rounded upward. Infinite ends are dealt with here, and nowhere else.
// The three share only `both_finite`: one function that is given the rounding would be longer than each.
ghost use Rattle.patterns.specs.Format.{binary64};
ghost use Rattle.patterns.specs.Value.{Finite};
ghost use Rattle.meaning.specs.Classes.{AtZero};
ghost use Rattle.meaning.specs.Pairs.{end_of};
ghost use Rattle.meaning.specs.Supremum.{UpperEnd};
ghost use Rattle.theorem3.specs.Ends.{sum_end, product_end, quotient_end};
ghost use Rattle.truth.specs.Answers.{Answers};

use end_pairs::{INFINITY, PLUS_ZERO, is_finite};
use products::product_up;
use quotients::quotient_up;
use sums::sum_up;

pub fn both_finite(a: u64, b: u64) -> bool
    ensures { Answers (Finite binary64 a × Finite binary64 b) result }
{
    is_finite(a) && is_finite(b)
}

pub fn sum_end(a: u64, b: u64) -> u64
    ensures { UpperEnd binary64 (sum_end (end_of binary64 a) (end_of binary64 b)) result }
{
    if both_finite(a, b) {
        sum_up(a, b)
    } else {
        INFINITY
    }
}

// The product of two ends that have the same sign where either is infinite.
pub fn product_end(a: u64, b: u64) -> u64
    ensures { UpperEnd binary64 (product_end (end_of binary64 a) (end_of binary64 b)) result }
{
    if both_finite(a, b) {
        product_up(a, b)
    } else {
        INFINITY
    }
}

// The quotient by an end that is not 0. An infinite divisor gives 0.
pub fn quotient_end(a: u64, b: u64) -> u64
    requires { AtZero (end_of binary64 b) → ⊥ }
    ensures { UpperEnd binary64 (quotient_end (end_of binary64 a) (end_of binary64 b)) result }
{
    if both_finite(a, b) {
        quotient_up(a, b)
    } else if is_finite(a) {
        PLUS_ZERO
    } else {
        INFINITY
    }
}

// Whether two ends combined are exact: a double, or without bound, so that nothing is rounded. It is asked apart from the end itself,
// so that it costs nothing where it is not wanted.
ghost use Rattle.patterns.specs.Format.{binary64};
ghost use Rattle.truth.specs.Answers.{Answers};
ghost use Rattle.meaning.specs.Classes.{AtZero};
ghost use Rattle.meaning.specs.Hull.{EndOfFormat};
ghost use Rattle.meaning.specs.Pairs.{end_of};
ghost use Rattle.theorem3.specs.Ends.{sum_end, product_end, quotient_end, greater_end};
ghost use Rattle.theorem3.specs.Corners.{end_at, Divides};

use crate::ends::{both_finite, product_end};
use end_pairs::{EndPair, less_or_equal};
use products::is_exact_product;
use quotients::is_exact_quotient;
use sums::is_exact_sum;
use theorem3::Corner;

pub fn sum_is_exact(a: u64, b: u64) -> bool
    ensures { Answers (EndOfFormat binary64 (sum_end (end_of binary64 a) (end_of binary64 b))) result }
{
    !both_finite(a, b) || is_exact_sum(a, b)
}

fn product_is_exact(a: u64, b: u64) -> bool
    ensures { Answers (EndOfFormat binary64 (product_end (end_of binary64 a) (end_of binary64 b))) result }
{
    !both_finite(a, b) || is_exact_product(a, b)
}

// The quotient by an end that is not 0. An infinite divisor gives 0.
fn quotient_is_exact(a: u64, b: u64) -> bool
    requires { AtZero (end_of binary64 b) → ⊥ }
    ensures { Answers (EndOfFormat binary64 (quotient_end (end_of binary64 a) (end_of binary64 b))) result }
{
    !both_finite(a, b) || is_exact_quotient(a, b)
}

// The greater of a * c and b * d. Where both round to one double, the first is the greater if it is exact.
fn greater_is_exact(x: EndPair, y: EndPair) -> bool
    ensures { Answers (EndOfFormat binary64 (greater_end (product_end (end_of binary64 x.a) (end_of binary64 y.a)) (product_end (end_of binary64 x.b) (end_of binary64 y.b)))) result }
{
    let lowers = product_end(x.a, y.a);
    let uppers = product_end(x.b, y.b);
    let first = product_is_exact(x.a, y.a);
    let second = product_is_exact(x.b, y.b);
    if lowers == uppers {
        first || second
    } else if less_or_equal(lowers, uppers) {
        second
    } else {
        first
    }
}

// A corner of [a, b] * [c, d].
pub fn product_is_exact_at(corner: Corner, x: EndPair, y: EndPair) -> bool
    ensures { Answers (EndOfFormat binary64 (end_at product_end corner (end_of binary64 x.a) (end_of binary64 x.b) (end_of binary64 y.a) (end_of binary64 y.b))) result }
{
    match corner {
        Corner::LowerLower => product_is_exact(x.a, y.a),
        Corner::LowerUpper => product_is_exact(x.a, y.b),
        Corner::UpperLower => product_is_exact(x.b, y.a),
        Corner::UpperUpper => product_is_exact(x.b, y.b),
        Corner::Greater => greater_is_exact(x, y),
        Corner::Zero | Corner::Unbounded => true,
    }
}

// A corner of [a, b] / [c, d]. No quotient is the greater of two; an arm for it has to be there all the same.
pub fn quotient_is_exact_at(corner: Corner, x: EndPair, y: EndPair) -> bool
    requires { Divides corner (end_of binary64 y.a) (end_of binary64 y.b) }
    ensures { Answers (EndOfFormat binary64 (end_at quotient_end corner (end_of binary64 x.a) (end_of binary64 x.b) (end_of binary64 y.a) (end_of binary64 y.b))) result }
{
    match corner {
        Corner::LowerLower => quotient_is_exact(x.a, y.a),
        Corner::LowerUpper => quotient_is_exact(x.a, y.b),
        Corner::UpperLower => quotient_is_exact(x.b, y.a),
        Corner::UpperUpper => quotient_is_exact(x.b, y.b),
        Corner::Greater | Corner::Zero | Corner::Unbounded => true,
    }
}

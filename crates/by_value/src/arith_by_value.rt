// Negation, sum, difference, product and quotient.
ghost use Rattle.patterns.specs.Format.{binary64};
ghost use Rattle.meaning.specs.Points as points;
ghost use Rattle.meaning.specs.Results.{point};
ghost use Rattle.meaning.specs.FormStatements.{Answer₁, Answer₂};
ghost use Rattle.meaning.specs.Exactness.{Exact₁, Exact₂};
ghost use Rattle.refusals.specs.RefusalMeaning.{outcome_of};
ghost use Rattle.interval.specs.IntervalMeaning.{pair_of};
ghost use Rattle.exact_operations.specs.ExactIntervals.{exact_pair_of};

use exact_operations::ExactInterval;
use interval::Interval;
use judged::{one, two, two_exact};
use operands::Operand;
use operation_names::{Arithmetic, Binary, Unary};
use refusals::Refusal;

// -[a, b] = [-b, -a]
pub fn neg<T: Operand>(x: T) -> Result<T, Refusal>
    ensures { Answer₁ binary64 T.form points.neg (T.value x) (outcome_of T.value result) }
{
    one(Unary::Neg, x)
}

// [a, b] + [c, d] = [a + c, b + d]
pub fn add<T: Operand>(x: T, y: T) -> Result<T, Refusal>
    ensures { Answer₂ binary64 T.form (point points.add) (T.value x) (T.value y) (outcome_of T.value result) }
{
    two(Binary::Add, x, y)
}

// [a, b] - [c, d] = [a - d, b - c]
pub fn sub<T: Operand>(x: T, y: T) -> Result<T, Refusal>
    ensures { Answer₂ binary64 T.form (point points.sub) (T.value x) (T.value y) (outcome_of T.value result) }
{
    two(Binary::Sub, x, y)
}

// The product. 0 times an end without bound is 0: [0, 0] * ENTIRE = [0, 0].
pub fn mul<T: Operand>(x: T, y: T) -> Result<T, Refusal>
    ensures { Answer₂ binary64 T.form (point points.mul) (T.value x) (T.value y) (outcome_of T.value result) }
{
    two(Binary::Mul, x, y)
}

// The quotient by the members of `y` other than 0. Where there is none it is EMPTY: [-1, 1] / [0, 0]. A decorated divisor that
// holds 0 gives Trv.
pub fn div<T: Operand>(x: T, y: T) -> Result<T, Refusal>
    ensures { Answer₂ binary64 T.form (point points.div) (T.value x) (T.value y) (outcome_of T.value result) }
{
    two(Binary::Div, x, y)
}

// `neg`, and for each end whether it is the true bound of all results, which it always is.
pub fn neg_exact(x: Interval) -> Result<ExactInterval, Refusal>
    ensures { Exact₁ binary64 points.neg (pair_of x) (outcome_of exact_pair_of result) }
{
    judged::neg_exact(x)
}

// `add`, and for each end whether it is the true bound of all results, attained or not.
pub fn add_exact(x: Interval, y: Interval) -> Result<ExactInterval, Refusal>
    ensures { Exact₂ binary64 (point points.add) (pair_of x) (pair_of y) (outcome_of exact_pair_of result) }
{
    two_exact(Arithmetic::Add, x, y)
}

// `sub`, and for each end whether it is the true bound of all results, attained or not.
pub fn sub_exact(x: Interval, y: Interval) -> Result<ExactInterval, Refusal>
    ensures { Exact₂ binary64 (point points.sub) (pair_of x) (pair_of y) (outcome_of exact_pair_of result) }
{
    two_exact(Arithmetic::Sub, x, y)
}

// `mul`, and for each end whether it is the true bound of all results, attained or not.
pub fn mul_exact(x: Interval, y: Interval) -> Result<ExactInterval, Refusal>
    ensures { Exact₂ binary64 (point points.mul) (pair_of x) (pair_of y) (outcome_of exact_pair_of result) }
{
    two_exact(Arithmetic::Mul, x, y)
}

// `div`, and for each end whether it is the true bound of all results, attained or not.
pub fn div_exact(x: Interval, y: Interval) -> Result<ExactInterval, Refusal>
    ensures { Exact₂ binary64 (point points.div) (pair_of x) (pair_of y) (outcome_of exact_pair_of result) }
{
    two_exact(Arithmetic::Div, x, y)
}

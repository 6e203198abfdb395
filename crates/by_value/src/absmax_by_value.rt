// The absolute value, the maximum and the minimum.
ghost use Rattle.patterns.specs.Format.{binary64};
ghost use Rattle.meaning.specs.Points as points;
ghost use Rattle.meaning.specs.Results.{point};
ghost use Rattle.meaning.specs.FormStatements.{Answer₁, Answer₂};
ghost use Rattle.refusals.specs.RefusalMeaning.{outcome_of};

use judged::{one, two};
use operands::Operand;
use operation_names::{Binary, Unary};
use refusals::Refusal;

// The absolute value of `x`. The domain of the point function is R, its range [0, ∞).
pub fn abs<T: Operand>(x: T) -> Result<T, Refusal>
    ensures { Answer₁ binary64 T.form points.abs (T.value x) (outcome_of T.value result) }
{
    one(Unary::Abs, x)
}

// The maximum of `x` and `y`. The domain of the point function is R², its range R.
pub fn max<T: Operand>(x: T, y: T) -> Result<T, Refusal>
    ensures { Answer₂ binary64 T.form (point points.max) (T.value x) (T.value y) (outcome_of T.value result) }
{
    two(Binary::Max, x, y)
}

// The minimum of `x` and `y`. The domain of the point function is R², its range R.
pub fn min<T: Operand>(x: T, y: T) -> Result<T, Refusal>
    ensures { Answer₂ binary64 T.form (point points.min) (T.value x) (T.value y) (outcome_of T.value result) }
{
    two(Binary::Min, x, y)
}

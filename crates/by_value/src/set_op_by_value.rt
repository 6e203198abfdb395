// The hull of the union, and the intersection. In the decorated form they are decorated with Trv.
ghost use Rattle.patterns.specs.Format.{binary64};
ghost use Rattle.meaning.specs.Results as results;
ghost use Rattle.meaning.specs.FormStatements.{Answer₂};
ghost use Rattle.refusals.specs.RefusalMeaning.{outcome_of};

use judged::two;
use operands::Operand;
use operation_names::Binary;
use refusals::Refusal;

// The tightest interval that contains both `x` and `y`.
pub fn convex_hull<T: Operand>(x: T, y: T) -> Result<T, Refusal>
    ensures { Answer₂ binary64 T.form results.convex_hull (T.value x) (T.value y) (outcome_of T.value result) }
{
    two(Binary::ConvexHull, x, y)
}

// The intersection of `x` and `y`.
pub fn intersection<T: Operand>(x: T, y: T) -> Result<T, Refusal>
    ensures { Answer₂ binary64 T.form results.intersection (T.value x) (T.value y) (outcome_of T.value result) }
{
    two(Binary::Intersection, x, y)
}

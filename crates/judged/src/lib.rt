// Any operation or comparison by name on any values: operands are judged first, the first before the second. It stands on those by
// name on operands that were judged (`operands`, `exact_operations`).
#![tactic(auto)]

ghost use Rattle.patterns.specs.Format.{binary64};
ghost use Rattle.meaning.specs.FormStatements.{Answer₁, Answer₂, Compared};
ghost use Rattle.meaning.specs.Points.{neg};
ghost use Rattle.meaning.specs.Exactness.{Exact₁, Exact₂};
ghost use Rattle.refusals.specs.RefusalMeaning.{outcome, outcome_of};
ghost use Rattle.interval.specs.IntervalMeaning.{pair_of};
ghost use Rattle.operation_names.specs.Names.{unary_of, binary_of, arithmetic_of, comparison_of};
ghost use Rattle.exact_operations.specs.ExactIntervals.{exact_pair_of};

use exact_operations::{ExactInterval, combine_exact, negate_exact};
use interval::{Form, Interval};
use operands::Operand;
use operation_names::{Arithmetic, Binary, Comparison, Unary};
use operation_steps::judge_two;
use refusals::Refusal;

pub fn one<T: Operand>(f: Unary, x: T) -> Result<T, Refusal>
    ensures { Answer₁ binary64 T.form (unary_of f) (T.value x) (outcome_of T.value result) }
{
    x.judge()?;
    Ok(T::image(f, x))
}

pub fn two<T: Operand>(o: Binary, x: T, y: T) -> Result<T, Refusal>
    ensures { Answer₂ binary64 T.form (binary_of o) (T.value x) (T.value y) (outcome_of T.value result) }
{
    judge_two(x, y)?;
    Ok(T::combine(o, x, y))
}

pub fn neg_exact(x: Interval) -> Result<ExactInterval, Refusal>
    ensures { Exact₁ binary64 neg (pair_of x) (outcome_of exact_pair_of result) }
{
    x.judge()?;
    Ok(negate_exact(x))
}

pub fn two_exact(o: Arithmetic, x: Interval, y: Interval) -> Result<ExactInterval, Refusal>
    ensures { Exact₂ binary64 (arithmetic_of o) (pair_of x) (pair_of y) (outcome_of exact_pair_of result) }
{
    judge_two(x, y)?;
    Ok(combine_exact(o, x, y))
}

pub fn compare<T: Operand>(c: Comparison, x: T, y: T) -> Result<bool, Refusal>
    ensures { Compared binary64 T.form (comparison_of c) (T.value x) (T.value y) (outcome result) }
{
    judge_two(x, y)?;
    Ok(T::compares(c, x, y))
}

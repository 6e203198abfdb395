// The functions whose results are whole numbers, on intervals passed by value, bare or decorated, under the names of the crate's file
// integer.rs.
#![tactic(auto)]

ghost use Rattle.patterns.specs.Format.{binary64};
ghost use Rattle.meaning.specs.Points as points;
ghost use Rattle.meaning.specs.FormStatements.{Answer₁};
ghost use Rattle.refusals.specs.RefusalMeaning.{outcome_of};

use judged::one;
use operands::Operand;
use operation_names::Unary;
use refusals::Refusal;
use wholes::Function;

// Rounds `x` to the closest integer toward +∞.
pub fn ceil<T: Operand>(x: T) -> Result<T, Refusal>
    ensures { Answer₁ binary64 T.form points.ceil (T.value x) (outcome_of T.value result) }
{
    one(Unary::Whole(Function::Ceil), x)
}

// Rounds `x` to the closest integer toward -∞.
pub fn floor<T: Operand>(x: T) -> Result<T, Refusal>
    ensures { Answer₁ binary64 T.form points.floor (T.value x) (outcome_of T.value result) }
{
    one(Unary::Whole(Function::Floor), x)
}

// Rounds `x` to the closest integer, away from zero in case of ties.
pub fn round<T: Operand>(x: T) -> Result<T, Refusal>
    ensures { Answer₁ binary64 T.form points.round (T.value x) (outcome_of T.value result) }
{
    one(Unary::Whole(Function::Round), x)
}

// Rounds `x` to the closest integer, the even number in case of ties.
pub fn round_ties_even<T: Operand>(x: T) -> Result<T, Refusal>
    ensures { Answer₁ binary64 T.form points.round_ties_even (T.value x) (outcome_of T.value result) }
{
    one(Unary::Whole(Function::RoundTiesEven), x)
}

// The sign of `x`: -1, 0 or 1. The sign of a zero is 0, whatever its sign bit.
pub fn sign<T: Operand>(x: T) -> Result<T, Refusal>
    ensures { Answer₁ binary64 T.form points.sign (T.value x) (outcome_of T.value result) }
{
    one(Unary::Whole(Function::Sign), x)
}

// Rounds `x` to the closest integer toward zero.
pub fn trunc<T: Operand>(x: T) -> Result<T, Refusal>
    ensures { Answer₁ binary64 T.form points.trunc (T.value x) (outcome_of T.value result) }
{
    one(Unary::Whole(Function::Trunc), x)
}

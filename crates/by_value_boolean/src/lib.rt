// The comparisons of two intervals passed by value, bare or decorated, under the names of the crate's file boolean.rs. NaI compares to
// nothing.
#![tactic(auto)]

ghost use Rattle.patterns.specs.Format.{binary64};
ghost use Rattle.meaning.specs.Comparisons as comparisons;
ghost use Rattle.meaning.specs.FormStatements.{Compared};
ghost use Rattle.refusals.specs.RefusalMeaning.{outcome};

use judged::compare;
use operands::Operand;
use operation_names::Comparison;
use refusals::Refusal;

// Whether `x` and `y` have the same members.
pub fn eq<T: Operand>(x: T, y: T) -> Result<bool, Refusal>
    ensures { Compared binary64 T.form comparisons.equal (T.value x) (T.value y) (outcome result) }
{
    compare(Comparison::Equal, x, y)
}

// Whether `x` and `y` have no member in common.
pub fn disjoint<T: Operand>(x: T, y: T) -> Result<bool, Refusal>
    ensures { Compared binary64 T.form comparisons.disjoint (T.value x) (T.value y) (outcome result) }
{
    compare(Comparison::Disjoint, x, y)
}

// Whether `x` is interior to `y`.
pub fn interior<T: Operand>(x: T, y: T) -> Result<bool, Refusal>
    ensures { Compared binary64 T.form comparisons.interior (T.value x) (T.value y) (outcome result) }
{
    compare(Comparison::Interior, x, y)
}

// Whether `x` is weakly less than `y`.
pub fn less<T: Operand>(x: T, y: T) -> Result<bool, Refusal>
    ensures { Compared binary64 T.form comparisons.less (T.value x) (T.value y) (outcome result) }
{
    compare(Comparison::Less, x, y)
}

// Whether `x` is to the left of `y` but may touch it.
pub fn precedes<T: Operand>(x: T, y: T) -> Result<bool, Refusal>
    ensures { Compared binary64 T.form comparisons.precedes (T.value x) (T.value y) (outcome result) }
{
    compare(Comparison::Precedes, x, y)
}

// Whether `x` is strictly less than `y`.
pub fn strict_less<T: Operand>(x: T, y: T) -> Result<bool, Refusal>
    ensures { Compared binary64 T.form comparisons.strict_less (T.value x) (T.value y) (outcome result) }
{
    compare(Comparison::StrictLess, x, y)
}

// Whether `x` is strictly to the left of `y`.
pub fn strict_precedes<T: Operand>(x: T, y: T) -> Result<bool, Refusal>
    ensures { Compared binary64 T.form comparisons.strict_precedes (T.value x) (T.value y) (outcome result) }
{
    compare(Comparison::StrictPrecedes, x, y)
}

// Whether `x` is a subset of `y`.
pub fn subset<T: Operand>(x: T, y: T) -> Result<bool, Refusal>
    ensures { Compared binary64 T.form comparisons.subset (T.value x) (T.value y) (outcome result) }
{
    compare(Comparison::Subset, x, y)
}

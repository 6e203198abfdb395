// Upward rounding of sums of doubles, in integers, and whether a sum is exact: both together, or one alone. It stands on signs and
// exponents of doubles (`significands`) and on packing.
#![tactic(auto)]

ghost use Rattle.truth.specs.Answers.{Answers};
ghost use Rattle.patterns.specs.Format.{binary64};
ghost use Rattle.patterns.specs.Rounding.{Up, UpTold, Reached, sum_of};
ghost use Rattle.patterns.specs.Value.{Finite};

use crate::ordered::Ordered;
use significands::double::SIGN;
use significands::rounded::Rounded;

mod align;
mod combine;
mod ordered;

// The least double, or +inf, that is not below the sum of two finite ones. The greater magnitude gives the sign.
pub fn sum_up(a: u64, b: u64) -> u64
    requires { Finite binary64 a × Finite binary64 b }
    ensures { Up binary64 (sum_of binary64 a b) result }
{
    let terms = Ordered::new(a, b);
    terms.combined().round_up(!(terms.great < SIGN))
}

// Whether the sum of two finite doubles is a double, so that nothing has to be rounded.
pub fn is_exact_sum(a: u64, b: u64) -> bool
    requires { Finite binary64 a × Finite binary64 b }
    ensures { Answers (Reached binary64 (sum_of binary64 a b)) result }
{
    Ordered::new(a, b).combined().is_representable()
}

// The sum rounded upward, and whether nothing was rounded.
pub fn add_ru(a: u64, b: u64) -> Rounded
    requires { Finite binary64 a × Finite binary64 b }
    ensures { UpTold binary64 (sum_of binary64 a b) result.pattern result.exact }
{
    Rounded {
        pattern: sum_up(a, b),
        exact: is_exact_sum(a, b),
    }
}

// Upward rounding of quotients of doubles, and whether a quotient is exact: both together, or one alone. It stands on significands of
// full length (`significands`) and on packing.
#![tactic(auto)]

ghost use Rattle.std.specs.Prelude.{◌≡◌};
ghost use Rattle.truth.specs.Answers.{Answers};
ghost use Rattle.patterns.specs.Format.{binary64};
ghost use Rattle.patterns.specs.Rounding.{Up, UpTold, Reached, quotient_of};
ghost use Rattle.patterns.specs.Value.{Finite, value, magnitude};

use crate::quotient_bracket::quotient;
use significands::double::SIGN;
use significands::normal::normalise;
use significands::rounded::Rounded;
use significands::sign::differ;

mod long_division;
mod quotient_bracket;

// The least double that is not below a / b, or infinity.
pub fn quotient_up(a: u64, b: u64) -> u64
    requires { Finite binary64 a × Finite binary64 b × (value 52 (magnitude binary64 b) ≡ 0 → ⊥) }
    ensures { Up binary64 (quotient_of binary64 a b) result }
{
    let x = a % SIGN;
    if x == 0 {
        return 0;
    }
    quotient(normalise(x), normalise(b % SIGN)).round_up(differ(a, b))
}

// Whether the quotient of two finite doubles is a double, so that nothing has to be rounded.
pub fn is_exact_quotient(a: u64, b: u64) -> bool
    requires { Finite binary64 a × Finite binary64 b × (value 52 (magnitude binary64 b) ≡ 0 → ⊥) }
    ensures { Answers (Reached binary64 (quotient_of binary64 a b)) result }
{
    let x = a % SIGN;
    if x == 0 {
        return true;
    }
    quotient(normalise(x), normalise(b % SIGN)).is_representable()
}

// The quotient rounded upward, and whether nothing was rounded.
pub fn div_ru(a: u64, b: u64) -> Rounded
    requires { Finite binary64 a × Finite binary64 b × (value 52 (magnitude binary64 b) ≡ 0 → ⊥) }
    ensures { UpTold binary64 (quotient_of binary64 a b) result.pattern result.exact }
{
    Rounded {
        pattern: quotient_up(a, b),
        exact: is_exact_quotient(a, b),
    }
}

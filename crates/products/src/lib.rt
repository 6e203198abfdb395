// Upward rounding of products of doubles, and whether a product is exact: both together, or one alone. It stands on significands of
// full length (`significands`) and on packing.
#![tactic(auto)]

ghost use Rattle.truth.specs.Answers.{Answers};
ghost use Rattle.patterns.specs.Format.{binary64};
ghost use Rattle.patterns.specs.Rounding.{Up, UpTold, Reached, product_of};
ghost use Rattle.patterns.specs.Value.{Finite};

use crate::product_bracket::product;
use significands::double::SIGN;
use significands::normal::normalise;
use significands::rounded::Rounded;
use significands::sign::differ;

mod product_bracket;

// The least double that is not below a * b, or infinity.
pub fn product_up(a: u64, b: u64) -> u64
    requires { Finite binary64 a × Finite binary64 b }
    ensures { Up binary64 (product_of binary64 a b) result }
{
    let x = a % SIGN;
    let y = b % SIGN;
    if x == 0 {
        return 0;
    }
    if y == 0 {
        return 0;
    }
    product(normalise(x), normalise(y)).round_up(differ(a, b))
}

// Whether the product of two finite doubles is a double, so that nothing has to be rounded.
pub fn is_exact_product(a: u64, b: u64) -> bool
    requires { Finite binary64 a × Finite binary64 b }
    ensures { Answers (Reached binary64 (product_of binary64 a b)) result }
{
    let x = a % SIGN;
    let y = b % SIGN;
    if x == 0 {
        return true;
    }
    if y == 0 {
        return true;
    }
    product(normalise(x), normalise(y)).is_representable()
}

// The product rounded upward, and whether nothing was rounded.
pub fn mul_ru(a: u64, b: u64) -> Rounded
    requires { Finite binary64 a × Finite binary64 b }
    ensures { UpTold binary64 (product_of binary64 a b) result.pattern result.exact }
{
    Rounded {
        pattern: product_up(a, b),
        exact: is_exact_product(a, b),
    }
}

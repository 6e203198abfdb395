// Brackets in units of the smallest positive number: a signed exponent becomes an unsigned one.
ghost use Rattle.std.specs.Prelude.{◌≡◌, ℕ, ◌-◌, ◌*◌, ◌^◌, ◌<◌, ◌≤◌, pos, ◌-ℤ◌, nat_abs};
ghost use Rattle.packing.specs.Bracket.{Brackets};

use crate::bracket::DoubleBracket;
use packing::bracket::Approx;

// The bracket of n / d at the exponent h - l, if the significand brackets n * 2^l / d at the exponent h.
// Where h - l is negative, the digits below the unit are cut off, and the exponent is 0.
pub fn in_units(significand: u64, exponent: i32, exact: bool) -> DoubleBracket
    requires { (2 ^ 52 ≤ significand) × (nat_abs exponent < 2 ^ 13) }
    ensures exponent { (h l : ℕ) → exponent ≡ pos h -ℤ pos l → result.exponent ≡ h - l }
    ensures brackets { (n d h l : ℕ) → 0 < d → exponent ≡ pos h -ℤ pos l → Brackets (n * 2 ^ l) d significand h exact → Brackets n d result.significand result.exponent result.exact }
{
    let size = exponent.unsigned_abs();
    if exponent < 0 {
        let whole = Approx {
            significand,
            exponent: 0,
            exact,
        };
        let c = whole.cut(size);
        return DoubleBracket {
            significand: c.significand,
            exponent: 0,
            exact: c.exact,
        };
    }
    DoubleBracket {
        significand,
        exponent: size,
        exact,
    }
}

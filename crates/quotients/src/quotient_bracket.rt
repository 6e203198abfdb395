// Brackets of quotients of significands of full length.
ghost use Rattle.std.specs.Prelude.{◌≡◌, ◌+◌, ◌-◌, ◌*◌, ◌^◌};
ghost use Rattle.packing.specs.Bracket.{Brackets};

use crate::long_division::divide;
use significands::bracket::DoubleBracket;
use significands::exponent::difference;
use significands::normal::Normal;
use significands::units::in_units;

// How far the exponent of the cut quotient lies above the difference of the exponents: 1074 for the unit, less the sixty bits.
const ABOVE: u32 = 1014;

// The exact quotient, cut after sixty bits. The remainder tells whether anything was cut off.
pub fn quotient(x: Normal, y: Normal) -> DoubleBracket
    ensures exponent { result.exponent ≡ x.exponent + 1014 - y.exponent }
    ensures brackets { Brackets (x.significand * 2 ^ (x.exponent + 1074)) (y.significand * 2 ^ y.exponent) result.significand result.exponent result.exact }
{
    let q = divide(x.significand, y.significand);
    in_units(
        q.quotient,
        difference(x.exponent + ABOVE, y.exponent),
        q.rest == 0,
    )
}

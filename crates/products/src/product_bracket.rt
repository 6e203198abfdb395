// Brackets of products of significands of full length.
ghost use Rattle.std.specs.Prelude.{◌≡◌, ◌+◌, ◌-◌, ◌*◌, ◌^◌};
ghost use Rattle.packing.specs.Bracket.{Brackets};

use significands::bracket::DoubleBracket;
use significands::exponent::difference;
use significands::normal::Normal;
use significands::units::in_units;

// Bits that are cut off the product of two significands, so that 61 or 62 are left.
const CUT: u32 = 44;

// How far the factors' exponents together lie above that of what is left.
// It is 52 for each factor and 1074 for the unit, less the bits that are cut off.
const BELOW: u32 = 1134;

// The exact product, cut to its upper bits. The lower ones tell whether anything was cut off.
// Each factor's exponent counts from 2^-52 of the unit, and the unit is 2^-1074: together 2^-1178.
pub fn product(x: Normal, y: Normal) -> DoubleBracket
    ensures exponent { result.exponent ≡ x.exponent + y.exponent - 1134 }
    ensures brackets { Brackets (x.significand * y.significand * 2 ^ (x.exponent + y.exponent)) (2 ^ 1178) result.significand result.exponent result.exact }
{
    let wide = (x.significand as u128) * (y.significand as u128);
    let low = wide % (1 << CUT);
    in_units(
        (wide >> CUT) as u64,
        difference(x.exponent + y.exponent, BELOW),
        low == 0,
    )
}

// Significands of doubles with all their digits, subnormal numbers' too.
ghost use Rattle.std.specs.Prelude.{◌<◌};
ghost use Rattle.patterns.specs.Format.{binary64, infinity};
ghost use Rattle.patterns.specs.Value.{value};
ghost use Rattle.significands.specs.Normal.{Full, Worth};

use crate::double::{DOUBLE, FRACTION};
use packing::magnitude::Unpacked;

// A significand with all its digits. The exponent counts from 2^-52 of the smallest positive number,
// so that it has enough to be lowered by for every subnormal number.
#[derive(Clone, Copy)]
pub struct Normal {
    pub significand: u64,
    pub exponent: u32,
    ghost full: { Full significand exponent },
}

// The value of a magnitude pattern, with all its digits.
pub fn normalise(b: u64) -> Normal
    requires { (0 < b) × (b < infinity binary64) }
    ensures { Worth (value 52 b) result.significand result.exponent }
{
    let u = DOUBLE.unpack(b);
    let raised = Unpacked {
        exponent: u.exponent + FRACTION,
        ..u
    };
    let n = DOUBLE.normalised(raised);
    Normal {
        significand: n.significand,
        exponent: n.exponent,
    }
}

// The whole numbers next to a magnitude.
ghost use Rattle.std.specs.Prelude.{◌<◌};
ghost use Rattle.patterns.specs.Format.{binary64, infinity};
ghost use Rattle.wholes.specs.Enclosure.{SplitOf, HasDigits};

use patterns::FRACTION;
use std::cmp::Ordering;

// The digit in front of the fraction of a normal number.
const HIDDEN: u64 = 0x0010_0000_0000_0000;
// The exponent field of the magnitudes whose last digit is worth 1.
const FIELD_OF_ONES: u64 = 1075;
// The pattern of 2^52. From here on every magnitude is a whole number.
const ALL_WHOLE: u64 = 0x4330_0000_0000_0000;
// The pattern of 1.
pub const ONE: u64 = 0x3ff0_0000_0000_0000;
// The pattern of 1/2.
const HALF: u64 = 0x3fe0_0000_0000_0000;

// The whole numbers next to a magnitude, as patterns, how it compares with their middle, and whether the lower one is even, which no
// Option says better: both neighbours count either way.
#[derive(Clone, Copy)]
pub struct Neighbours {
    pub low: u64,
    pub high: u64,
    pub side: Ordering,
    pub even: bool,
}

// A magnitude from 1 on that may have digits after the point. Adding a unit to the pattern carries into the exponent.
fn split_digits(b: u64) -> Option<Neighbours>
    requires { HasDigits binary64 b }
    ensures { SplitOf binary64 b result }
{
    let unit = 1u64 << (FIELD_OF_ONES - (b >> FRACTION));
    let significand = b % HIDDEN + HIDDEN;
    let rest = significand % unit;
    if rest == 0 {
        return None;
    }
    let low = b - rest;
    Some(Neighbours {
        low,
        high: low + unit,
        side: rest.cmp(&(unit / 2)),
        even: significand / unit % 2 == 0,
    })
}

// The whole numbers next to a magnitude, or none where it is whole itself.
pub fn split(b: u64) -> Option<Neighbours>
    requires { b < infinity binary64 }
    ensures { SplitOf binary64 b result }
{
    if b == 0 {
        return None;
    }
    if b < ONE {
        return Some(Neighbours {
            low: 0,
            high: ONE,
            side: b.cmp(&HALF),
            even: true,
        });
    }
    if b < ALL_WHOLE {
        return split_digits(b);
    }
    None
}

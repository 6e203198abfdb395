// The sign of an answer.
ghost use Rattle.std.specs.Bool.{xor};
ghost use Rattle.std.specs.Prelude.{◌≡◌, ℕ, ◌^◌, ◌<◌, ltb};
ghost use Rattle.packing.specs.Bracket.{Brackets};
ghost use Rattle.patterns.specs.Format.{binary64};
ghost use Rattle.patterns.specs.Rounding.{Up};
ghost use Rattle.significands.specs.SignedExact.{signed};

use crate::bracket::DoubleBracket;
use crate::double::{DOUBLE, SIGN};

// Whether two doubles have unlike signs.
pub fn differ(a: u64, b: u64) -> bool
    ensures { result ≡ xor (ltb a (2 ^ 63)) (ltb b (2 ^ 63)) }
{
    (a < SIGN) ^ (b < SIGN)
}

impl DoubleBracket {
    // The value with its sign, rounded upward: a magnitude away from zero, and a negative value's toward it.
    // A negative value above the greatest negative double rounds to +0.0.
    pub fn round_up(self, negative: bool) -> u64
        ensures { (n d : ℕ) → 0 < d → Brackets n d self.significand self.exponent self.exact → Up binary64 (signed negative n d) result }
    {
        if negative {
            let b = DOUBLE.pack_down(self.approx());
            if b == 0 {
                return 0;
            }
            return SIGN | b;
        }
        DOUBLE.pack_up(self.approx())
    }
}

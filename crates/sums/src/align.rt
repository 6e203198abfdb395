// Two magnitudes brought to one exponent.
ghost use Rattle.std.specs.Prelude.{◌≡◌, max, ◌-◌, ◌*◌, ◌^◌};
ghost use Rattle.patterns.specs.Format.{binary64};
ghost use Rattle.patterns.specs.Value.{value, magnitude};
ghost use Rattle.sums.specs.Alignment.{Aligns, Alignable, common_exponent};

use crate::ordered::Ordered;
use packing::bracket::Approx;
use packing::magnitude::Unpacked;
use significands::double::{DOUBLE, SIGN};

// Digits that the smaller significand keeps below the greater one's last.
// With them, the 53 digits of a significand and a carry fill a word.
const GUARD: u32 = 10;

// The greater magnitude is high * 2^exponent, and the smaller one is cut to low * 2^exponent.
// A flag and no Option says whether nothing was cut off, since the columns count either way.
#[derive(Clone, Copy)]
pub struct Columns {
    pub high: u64,
    pub low: u64,
    pub exponent: u32,
    pub exact: bool,
}

// The two at the smaller one's exponent if that is near, and otherwise as low as the greater one's word allows.
fn align(p: Unpacked, q: Unpacked) -> Columns
    requires { Alignable p.significand p.exponent q.significand q.exponent }
    ensures exponent { result.exponent ≡ max q.exponent (p.exponent - 10) }
    ensures aligns { Aligns (p.significand * 2 ^ p.exponent) (q.significand * 2 ^ q.exponent) result.high result.low result.exponent result.exact }
{
    let distance = p.exponent - q.exponent;
    if distance <= GUARD {
        return Columns {
            high: p.significand << distance,
            low: q.significand,
            exponent: q.exponent,
            exact: true,
        };
    }
    let whole = Approx {
        significand: q.significand,
        exponent: q.exponent,
        exact: true,
    };
    let tail = whole.cut(distance - GUARD);
    Columns {
        high: p.significand << GUARD,
        low: tail.significand,
        exponent: tail.exponent,
        exact: tail.exact,
    }
}

impl Ordered {
    // The magnitudes of the two.
    pub fn aligned(self) -> Columns
        ensures exponent { result.exponent ≡ common_exponent (magnitude binary64 self.great) (magnitude binary64 self.small) }
        ensures aligns { Aligns (value 52 (magnitude binary64 self.great)) (value 52 (magnitude binary64 self.small)) result.high result.low result.exponent result.exact }
    {
        align(
            DOUBLE.unpack(self.great % SIGN),
            DOUBLE.unpack(self.small % SIGN),
        )
    }
}

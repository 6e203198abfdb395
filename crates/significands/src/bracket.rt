// Brackets that pack into doubles.
ghost use Rattle.std.specs.Prelude.{◌≡◌, ◌^◌, ◌<◌, ◌≤◌};
ghost use Rattle.packing.specs.Packing.{TellsRepresentable};

use crate::double::DOUBLE;
use packing::bracket::Approx;

// An exact value cut to significand * 2^exponent, no coarser than doubles are there, and whether nothing was cut off. The value
// counts either way, so that no Option says this.
#[derive(Clone, Copy)]
pub struct DoubleBracket {
    pub significand: u64,
    pub exponent: u32,
    pub exact: bool,
    ghost near: { exponent < 2 ^ 13 },
    ghost fine: { 0 < exponent → 2 ^ 52 ≤ significand },
}

impl DoubleBracket {
    // The bracket without its format.
    pub(crate) fn approx(self) -> Approx
        ensures { (result.significand ≡ self.significand) × (result.exponent ≡ self.exponent) × (result.exact ≡ self.exact) }
    {
        Approx {
            significand: self.significand,
            exponent: self.exponent,
            exact: self.exact,
        }
    }

    // Whether the value is a finite double's magnitude, so that nothing is rounded.
    pub fn is_representable(self) -> bool
        ensures { TellsRepresentable 52 2047 self.significand self.exponent self.exact result }
    {
        DOUBLE.is_representable(self.approx())
    }
}

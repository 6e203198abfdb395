// Brackets of exact values.
ghost use Rattle.std.specs.Prelude.{◌≡◌, ◌+◌, ◌/◌, ◌^◌, ◌<◌};
ghost use Rattle.packing.specs.Bracket.{Rebrackets};

// An exact value cut to significand * 2^exponent, and whether nothing was cut off.
// A flag and no Option, since the significand and the exponent count either way.
#[derive(Clone, Copy)]
pub struct Approx {
    pub significand: u64,
    pub exponent: u32,
    pub exact: bool,
}

impl Approx {
    // The value cut shorter by `shift` digits. Of a word's digits and more nothing is left.
    pub fn cut(self, shift: u32) -> Approx
        requires { self.exponent + shift < 2 ^ 32 }
        ensures cuts { (result.significand ≡ self.significand / 2 ^ shift) × (result.exponent ≡ self.exponent + shift) }
        ensures brackets { Rebrackets self.significand self.exponent self.exact result.significand result.exponent result.exact }
    {
        let kept = self.significand.unbounded_shr(shift);
        Approx {
            significand: kept,
            exponent: self.exponent + shift,
            exact: self.exact & (kept.unbounded_shl(shift) == self.significand),
        }
    }
}

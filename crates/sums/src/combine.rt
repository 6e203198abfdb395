// Brackets of the sum and of the difference of two magnitudes, the first not the smaller.
ghost use Rattle.std.specs.Bool.{xor};
ghost use Rattle.std.specs.Prelude.{◌+◌, ◌-◌, ◌^◌, ltb};
ghost use Rattle.packing.specs.Bracket.{Brackets, Lowered};
ghost use Rattle.patterns.specs.Format.{binary64};
ghost use Rattle.patterns.specs.Value.{value, magnitude, choose};
ghost use Rattle.sums.specs.Alignment.{common_exponent};

use crate::ordered::Ordered;
use packing::magnitude::Unpacked;
use significands::bracket::DoubleBracket;
use significands::double::DOUBLE;
use significands::sign::differ;

impl Ordered {
    // The sum of the two magnitudes.
    fn sum(self) -> DoubleBracket
        ensures lowered { Lowered 52 (common_exponent (magnitude binary64 self.great) (magnitude binary64 self.small)) result.significand result.exponent }
        ensures brackets { Brackets (value 52 (magnitude binary64 self.great) + value 52 (magnitude binary64 self.small)) 1 result.significand result.exponent result.exact }
    {
        let a = self.aligned();
        DoubleBracket {
            significand: a.high + a.low,
            exponent: a.exponent,
            exact: a.exact,
        }
    }

    // The greater magnitude less the smaller one. Where digits were cut off the smaller one, one unit less is left.
    fn difference(self) -> DoubleBracket
        ensures lowered { Lowered 52 (common_exponent (magnitude binary64 self.great) (magnitude binary64 self.small)) result.significand result.exponent }
        ensures brackets { Brackets (value 52 (magnitude binary64 self.great) - value 52 (magnitude binary64 self.small)) 1 result.significand result.exponent result.exact }
    {
        let a = self.aligned();
        if a.exact {
            if a.high == a.low {
                return DoubleBracket {
                    significand: 0,
                    exponent: 0,
                    exact: true,
                };
            }
            let whole = Unpacked {
                significand: a.high - a.low,
                exponent: a.exponent,
            };
            let n = DOUBLE.normalised(whole);
            return DoubleBracket {
                significand: n.significand,
                exponent: n.exponent,
                exact: true,
            };
        }
        DoubleBracket {
            significand: a.high - a.low - 1,
            exponent: a.exponent,
            exact: false,
        }
    }

    // The difference of the magnitudes where the signs are unlike, and otherwise their sum.
    // Packable, lowered from one exponent and in the bracket, there is one such answer.
    pub fn combined(self) -> DoubleBracket
        ensures lowered { Lowered 52 (common_exponent (magnitude binary64 self.great) (magnitude binary64 self.small)) result.significand result.exponent }
        ensures brackets { Brackets (choose (xor (ltb self.great (2 ^ 63)) (ltb self.small (2 ^ 63))) (value 52 (magnitude binary64 self.great) - value 52 (magnitude binary64 self.small)) (value 52 (magnitude binary64 self.great) + value 52 (magnitude binary64 self.small))) 1 result.significand result.exponent result.exact }
    {
        if differ(self.great, self.small) {
            return self.difference();
        }
        self.sum()
    }
}

// Brackets packed into magnitude patterns, rounded either way.
ghost use Rattle.std.specs.Prelude.{◌≡◌, min, ◌+◌, ◌*◌, ◌^◌, ◌<◌, ◌≤◌};
ghost use Rattle.truth.specs.Answers.{Answers};
ghost use Rattle.packing.specs.Bracket.{FineEnough};
ghost use Rattle.packing.specs.Packing.{Packable, PacksUp, PacksDown, TellsRepresentable, Fitted};

use crate::bracket::Approx;
use crate::format::Format;

impl Format {
    // The value cut to the digits that the format holds.
    fn fitted(self, a: Approx) -> Approx
        requires { (a.exponent < 2 ^ 13) × FineEnough self.frac a.significand a.exponent }
        ensures { Fitted self.frac a.significand a.exponent a.exact result.significand result.exponent result.exact }
    {
        a.cut(self.excess(a.significand))
    }

    // The pattern of infinity.
    fn infinity(self) -> u64
        ensures { result ≡ self.codes * 2 ^ self.frac }
    {
        (self.codes as u64) << self.frac
    }

    // The pattern of significand * 2^exponent, whose exponent has a code.
    fn pattern(self, significand: u64, exponent: u32) -> u64
        requires { (exponent < self.codes) × (significand ≤ 2 ^ (self.frac + 1)) }
        ensures { result ≡ exponent * 2 ^ self.frac + significand }
    {
        ((exponent as u64) << self.frac) + significand
    }

    // The pattern of significand * 2^exponent, or `most`, which is not above infinity's, where that is less.
    fn capped(self, most: u64, significand: u64, exponent: u32) -> u64
        requires { (most ≤ self.codes * 2 ^ self.frac) × (significand ≤ 2 ^ (self.frac + 1)) }
        ensures { result ≡ min (exponent * 2 ^ self.frac + significand) most }
    {
        if self.codes <= exponent {
            return most;
        }
        self.pattern(significand, exponent).min(most)
    }

    // The least pattern, up to infinity's, that is not below the value in the bracket.
    pub fn pack_up(self, a: Approx) -> u64
        requires { Packable self.frac self.codes a.significand a.exponent }
        ensures { PacksUp self.frac self.codes a.significand a.exponent a.exact result }
    {
        let c = self.fitted(a);
        if c.exact {
            return self.capped(self.infinity(), c.significand, c.exponent);
        }
        self.capped(self.infinity(), c.significand + 1, c.exponent)
    }

    // The greatest finite pattern that is not above the value in the bracket.
    pub fn pack_down(self, a: Approx) -> u64
        requires { Packable self.frac self.codes a.significand a.exponent }
        ensures { PacksDown self.frac self.codes a.significand a.exponent a.exact result }
    {
        let c = self.fitted(a);
        self.capped(self.infinity() - 1, c.significand, c.exponent)
    }

    // Whether the pattern of significand * 2^exponent is a finite number's.
    fn stays_finite(self, significand: u64, exponent: u32) -> bool
        requires { significand ≤ 2 ^ (self.frac + 1) }
        ensures { Answers (exponent * 2 ^ self.frac + significand < self.codes * 2 ^ self.frac) result }
    {
        if self.codes <= exponent {
            return false;
        }
        self.pattern(significand, exponent) < self.infinity()
    }

    // Whether the value in the bracket is a finite pattern's own, so that nothing is rounded either way.
    pub fn is_representable(self, a: Approx) -> bool
        requires { Packable self.frac self.codes a.significand a.exponent }
        ensures { TellsRepresentable self.frac self.codes a.significand a.exponent a.exact result }
    {
        let c = self.fitted(a);
        c.exact & self.stays_finite(c.significand, c.exponent)
    }
}

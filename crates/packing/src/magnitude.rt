// Magnitudes, which are patterns without a sign.
ghost use Rattle.std.specs.Prelude.{◌/◌, ◌^◌, ◌<◌};
ghost use Rattle.packing.specs.Magnitude.{Unpacks, Raises, Normalised};

use crate::format::Format;

// A magnitude of worth significand * 2^exponent.
#[derive(Clone, Copy)]
pub struct Unpacked {
    pub significand: u64,
    pub exponent: u32,
}

impl Format {
    // The significand and the exponent of a magnitude pattern, in units of the smallest positive number.
    pub fn unpack(self, b: u64) -> Unpacked
        requires { b / 2 ^ self.frac < 2 ^ 11 }
        ensures { Unpacks self.frac b result.significand result.exponent }
    {
        let field = b >> self.frac;
        let fraction = b - (field << self.frac);
        if field == 0 {
            return Unpacked {
                significand: fraction,
                exponent: 0,
            };
        }
        Unpacked {
            significand: (1u64 << self.frac) + fraction,
            exponent: (field - 1) as u32,
        }
    }

    // How far a significand that is not 0 is shifted left: until it has all digits of the format, or its exponent is spent.
    fn distance(self, u: Unpacked) -> u32
        requires { 0 < u.significand }
        ensures { Raises self.frac u.significand u.exponent result }
    {
        self.missing(u.significand).min(u.exponent)
    }

    // The same worth with the significand shifted left until it has all digits of the format, but not below exponent 0.
    pub fn normalised(self, u: Unpacked) -> Unpacked
        requires { 0 < u.significand }
        ensures { Normalised self.frac u.significand u.exponent result.significand result.exponent }
    {
        let shift = self.distance(u);
        Unpacked {
            significand: u.significand << shift,
            exponent: u.exponent - shift,
        }
    }
}

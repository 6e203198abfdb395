// Digits that significands have too many or too few of, counted in one operation.
ghost use Rattle.std.specs.Prelude.{◌≡◌, ◌+◌, ◌-◌, ◌<◌};
ghost use Rattle.packing.specs.Digits.{Excess, Missing};

use crate::format::Format;

impl Format {
    // How many zeros lead a word with a significand of full length.
    fn zeros(self) -> u32
        ensures { result ≡ 64 - (self.frac + 1) }
    {
        u64::BITS - (self.frac + 1)
    }

    // How many digits of `significand` are more than the format holds.
    pub fn excess(self, significand: u64) -> u32
        ensures { Excess self.frac significand result }
    {
        self.zeros().saturating_sub(significand.leading_zeros())
    }

    // How many digits `significand`, which is not 0, lacks of those that the format holds.
    pub fn missing(self, significand: u64) -> u32
        requires { 0 < significand }
        ensures { Missing self.frac significand result }
    {
        significand.leading_zeros().saturating_sub(self.zeros())
    }
}

// Signed exponents: differences of unsigned ones.
ghost use Rattle.std.specs.Prelude.{◌≡◌, ◌^◌, ◌<◌, pos, ◌-ℤ◌, nat_abs};

// The exponent of 2^over / 2^under.
pub fn difference(over: u32, under: u32) -> i32
    requires { (over < 2 ^ 13) × (under < 2 ^ 13) }
    ensures { (result ≡ pos over -ℤ pos under) × (nat_abs result < 2 ^ 13) }
{
    (over as i32) - (under as i32)
}

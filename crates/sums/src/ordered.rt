// Two doubles by the size of their magnitudes.
ghost use Rattle.std.specs.Prelude.{◌≡◌, ◌<◌, ◌≤◌};
ghost use Rattle.patterns.specs.Format.{binary64};
ghost use Rattle.patterns.specs.Value.{Finite, magnitude};

use significands::double::SIGN;

// Two finite doubles, the first not the smaller in magnitude, so that it gives the sign of their sum.
#[derive(Clone, Copy)]
pub struct Ordered {
    pub great: u64,
    pub small: u64,
    ghost finite: { Finite binary64 great },
    ghost ordered: { magnitude binary64 small ≤ magnitude binary64 great },
}

impl Ordered {
    // They are ordered once, for any signs: a branch on each sign could not be foretold.
    #[tactic(auto, unfolding(patterns::specs::Value::magnitude, patterns::specs::Format::sign_bit))]
    pub fn new(a: u64, b: u64) -> Ordered
        requires { Finite binary64 a × Finite binary64 b }
        ensures kept { magnitude binary64 b ≤ magnitude binary64 a → (result.great ≡ a) × (result.small ≡ b) }
        ensures swapped { magnitude binary64 a < magnitude binary64 b → (result.great ≡ b) × (result.small ≡ a) }
    {
        if a % SIGN < b % SIGN {
            Ordered { great: b, small: a }
        } else {
            Ordered { great: a, small: b }
        }
    }
}

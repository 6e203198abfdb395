// Long division of significands with a remainder, thirty bits a turn.
// By u128, as bench/plain.rs divides, a quotient takes 1.6 times as long: a library's routine divides there.
ghost use Rattle.std.specs.Prelude.{◌≡◌, ◌+◌, ◌*◌, ◌^◌, ◌<◌, ◌≤◌};

// Bits of the quotient that a turn finds.
const DIGIT: u32 = 30;

// Bits of the divisor that a turn leaves out, so that the rest of it has 32.
const LOW: u32 = 21;

// Bits that a turn appends to the remainder before it divides: DIGIT - LOW.
const APPENDED: u32 = 9;

// A quotient so far, what it leaves, and the significand that is divided by.
#[derive(Clone, Copy)]
pub struct Division {
    pub quotient: u64,
    pub rest: u64,
    divisor: u64,
    ghost least: { 2 ^ 52 ≤ divisor },
    ghost short: { divisor < 2 ^ 53 },
    ghost small: { rest < 3 * divisor },
}

impl Division {
    // One turn. It divides by the upper 32 bits of the divisor, rounded up, so that the digit is never too large.
    // What the rounding added to the divisor, times the digit, is given back to the remainder.
    fn turn(self) -> Division
        requires { self.quotient < 2 ^ 32 }
        ensures divisor { result.divisor ≡ self.divisor }
        ensures value { result.quotient * self.divisor + result.rest ≡ (self.quotient * self.divisor + self.rest) * 2 ^ 30 }
        ensures quotient { result.quotient < (self.quotient + 3) * 2 ^ 30 }
    {
        let upper = (self.divisor >> LOW) + 1;
        let added = (upper << LOW) - self.divisor;
        let wide = self.rest << APPENDED;
        let digit = wide / upper;
        Division {
            quotient: (self.quotient << DIGIT) + digit,
            rest: ((wide % upper) << LOW) + digit * added,
            divisor: self.divisor,
        }
    }

    // The same value, with the remainder brought below the divisor.
    fn settled(self) -> Division
        requires { self.quotient < 2 ^ 62 }
        ensures value { result.quotient * self.divisor + result.rest ≡ self.quotient * self.divisor + self.rest }
        ensures rest { result.rest < self.divisor }
    {
        if self.rest < self.divisor {
            return self;
        }
        if self.rest < 2 * self.divisor {
            return Division {
                quotient: self.quotient + 1,
                rest: self.rest - self.divisor,
                divisor: self.divisor,
            };
        }
        Division {
            quotient: self.quotient + 2,
            rest: self.rest - 2 * self.divisor,
            divisor: self.divisor,
        }
    }
}

// A quotient of two significands, with sixty bits after the point.
pub fn divide(dividend: u64, divisor: u64) -> Division
    requires { (2 ^ 52 ≤ divisor) × (divisor < 2 ^ 53) × (2 ^ 52 ≤ dividend) × (dividend < 2 ^ 53) }
    ensures { (result.quotient * divisor + result.rest ≡ dividend * 2 ^ 60) × (result.rest < divisor) × (2 ^ 59 ≤ result.quotient) }
{
    let whole = Division {
        quotient: 0,
        rest: dividend,
        divisor,
    };
    whole.turn().turn().settled()
}

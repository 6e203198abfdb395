// What each function makes of a magnitude.
ghost use Rattle.patterns.specs.Format.{binary64, infinity};
ghost use Rattle.std.specs.Prelude.{◌<◌};
ghost use Rattle.meaning.specs.Points.{ceil, floor, round, round_ties_even, sign};
ghost use Rattle.wholes.specs.Made.{MadeMagnitude};

use crate::split::{ONE, split};

// The greatest whole number not above a magnitude.
pub fn downward(m: u64) -> u64
    requires { m < infinity binary64 }
    ensures { MadeMagnitude binary64 floor m result }
{
    split(m).map_or(m, |n| n.low)
}

// The least whole number not below a magnitude.
pub fn upward(m: u64) -> u64
    requires { m < infinity binary64 }
    ensures { MadeMagnitude binary64 ceil m result }
{
    split(m).map_or(m, |n| n.high)
}

// The nearest whole number, and of two the greater one.
pub fn nearest(m: u64) -> u64
    requires { m < infinity binary64 }
    ensures { MadeMagnitude binary64 round m result }
{
    split(m).map_or(m, |n| if n.side.is_lt() { n.low } else { n.high })
}

// The nearest whole number, and of two the even one.
pub fn nearest_even(m: u64) -> u64
    requires { m < infinity binary64 }
    ensures { MadeMagnitude binary64 round_ties_even m result }
{
    split(m).map_or(m, |n| {
        if n.side.is_lt() || n.side.is_eq() && n.even {
            n.low
        } else {
            n.high
        }
    })
}

// 1, or 0 for 0.
pub fn sign_of(m: u64) -> u64
    requires { m < infinity binary64 }
    ensures { MadeMagnitude binary64 sign m result }
{
    if m == 0 { 0 } else { ONE }
}

// The order of bit patterns by value. An infinity compares as a number beyond all finite ones.
ghost use Rattle.std.specs.Prelude.{◌≡◌};
ghost use Rattle.patterns.specs.Format.{binary64};
ghost use Rattle.meaning.specs.Fraction.{◌≼◌};
ghost use Rattle.meaning.specs.Pairs.{worth};
ghost use Rattle.truth.specs.Answers.{Answers};
ghost use Rattle.end_pairs.specs.Keys.{key_of};
ghost use Rattle.end_pairs.specs.Order.{LesserOf, GreaterOf};

use crate::types::SIGN;

// A number that rises with a pattern's value, and is the same for both zeros.
pub fn key(b: u64) -> u64
    ensures { result ≡ key_of binary64 b }
{
    if b < SIGN {
        SIGN + b
    } else {
        SIGN - (b - SIGN)
    }
}

// Whether `a` is worth at most `b`.
pub fn less_or_equal(a: u64, b: u64) -> bool
    ensures { Answers (worth binary64 a ≼ worth binary64 b) result }
{
    key(a) <= key(b)
}

// The lesser of two ends, the first on a tie. `min_by_key` would be no plainer: it takes a closure round the key.
pub fn lesser(a: u64, c: u64) -> u64
    ensures { LesserOf binary64 a c result }
{
    if less_or_equal(a, c) { a } else { c }
}

// The greater of two ends, the second on a tie.
pub fn greater(b: u64, d: u64) -> u64
    ensures { GreaterOf binary64 b d result }
{
    if less_or_equal(b, d) { d } else { b }
}

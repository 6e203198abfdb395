// Which two ends are those of an interval, or of NaI.
ghost use Rattle.std.specs.Prelude.{◌⊎◌, ◌≡◌};
ghost use Rattle.patterns.specs.Format.{binary64};
ghost use Rattle.patterns.specs.Value.{Finite};
ghost use Rattle.meaning.specs.Pairs.{Proper, EmptyPair, Bare, NaNs};
ghost use Rattle.meaning.specs.Statement.{Ends};
ghost use Rattle.truth.specs.Answers.{Answers};
ghost use Rattle.end_pairs.specs.EndPairMeaning.{pair_of};

use crate::order::less_or_equal;
use crate::types::{EndPair, INFINITY, MINUS_INFINITY, SIGN};

// Whether a pattern is a finite number's.
pub fn is_finite(b: u64) -> bool
    ensures { Answers (Finite binary64 b) result }
{
    b % SIGN < INFINITY
}

// Whether a pattern may be an end of an interval with members, on the side of an infinity.
fn is_end(b: u64, infinity: u64) -> bool
    ensures { Answers (Finite binary64 b ⊎ (b ≡ infinity)) result }
{
    is_finite(b) || b == infinity
}

// Whether the ends are those of an interval with members: [a, b] with a ≤ b, a not +inf, b not -inf.
pub fn is_proper(x: EndPair) -> bool
    ensures { Answers (Proper binary64 (pair_of x)) result }
{
    if !is_end(x.a, MINUS_INFINITY) {
        return false;
    }
    is_end(x.b, INFINITY) && less_or_equal(x.a, x.b)
}

// Whether the ends are EMPTY's.
pub fn is_empty_pair(x: EndPair) -> bool
    ensures { Answers (EmptyPair binary64 (pair_of x)) result }
{
    x == EndPair::EMPTY
}

// Whether the ends are those of an interval.
pub fn is_bare(x: EndPair) -> bool
    ensures { Answers (Bare binary64 (pair_of x)) result }
{
    is_proper(x) || is_empty_pair(x)
}

// Whether the ends are those of NaI.
pub fn are_nans(x: EndPair) -> bool
    ensures { Answers (NaNs binary64 (pair_of x)) result }
{
    x == EndPair::NANS
}

// Whether the ends are those of an interval or of NaI.
pub fn has_ends(x: EndPair) -> bool
    ensures { Answers (Ends binary64 (pair_of x)) result }
{
    is_bare(x) || are_nans(x)
}

// Whether both ends are finite.
pub fn is_bounded(x: EndPair) -> bool
    ensures { Answers (Finite binary64 x.a × Finite binary64 x.b) result }
{
    is_finite(x.a) && is_finite(x.b)
}

// Whether one of two pairs of ends is EMPTY's.
pub fn either_empty(x: EndPair, y: EndPair) -> bool
    ensures { Answers (EmptyPair binary64 (pair_of x) ⊎ EmptyPair binary64 (pair_of y)) result }
{
    is_empty_pair(x) || is_empty_pair(y)
}

// What is asked of the set of two ends that were judged already.
ghost use Rattle.std.specs.Prelude.{◌≡◌};
ghost use Rattle.patterns.specs.Format.{binary64};
ghost use Rattle.meaning.specs.Sets.{span, unbounded};
ghost use Rattle.meaning.specs.Pairs.{Bare, set_of};
ghost use Rattle.meaning.specs.Decorations.{Point};
ghost use Rattle.truth.specs.Answers.{Answers};
ghost use Rattle.end_pairs.specs.EndPairMeaning.{pair_of};

use crate::order::less_or_equal;
use crate::tests::is_bounded;
use crate::types::EndPair;

// Whether neither end bounds the interval.
pub fn holds_all(x: EndPair) -> bool
    requires { Bare binary64 (pair_of x) }
    ensures { Answers (set_of binary64 (pair_of x) ≡ span unbounded unbounded) result }
{
    x == EndPair::ENTIRE
}

// Whether the interval has exactly one member.
pub fn is_point(x: EndPair) -> bool
    requires { Bare binary64 (pair_of x) }
    ensures { Answers (Point (set_of binary64 (pair_of x))) result }
{
    is_bounded(x) && less_or_equal(x.b, x.a)
}

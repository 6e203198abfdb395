// Whether members of two intervals that were judged already are in the order ≤, by their ends. The intervals are x = [a, b] and y = [c, d], or ∅.
ghost use Rattle.patterns.specs.Format.{binary64};
ghost use Rattle.meaning.specs.Fraction.{◌≼◌};
ghost use Rattle.meaning.specs.Pairs.{Bare, set_of};
ghost use Rattle.meaning.specs.Comparisons.{EachSome, EachEach, AtLeast};
ghost use Rattle.truth.specs.Answers.{Answers};
ghost use Rattle.end_pairs.specs.EndPairMeaning.{pair_of};

use end_pairs::{EndPair, either_empty, is_empty_pair, key, mirrored};

// Whether each member of `x` has one in `y` that is at least as great:
//
//             | y = ∅ | y = [c, d]
// ------------+-------+------------
//  x = ∅      | true  | true
//  x = [a, b] | false | b ≤ d
pub fn reaches(x: EndPair, y: EndPair) -> bool
    requires { Bare binary64 (pair_of x) × Bare binary64 (pair_of y) }
    ensures { Answers (EachSome ◌≼◌ (set_of binary64 (pair_of x)) (set_of binary64 (pair_of y))) result }
{
    if either_empty(x, y) {
        return is_empty_pair(x);
    }
    key(x.b) <= key(y.b)
}

// Whether each member of `x` has one in `y` that is at most as great: c ≤ a  ⟺  -a ≤ -c.
pub fn reaches_down(x: EndPair, y: EndPair) -> bool
    requires { Bare binary64 (pair_of x) × Bare binary64 (pair_of y) }
    ensures { Answers (EachSome AtLeast (set_of binary64 (pair_of x)) (set_of binary64 (pair_of y))) result }
{
    reaches(mirrored(x), mirrored(y))
}

// Whether `x` is to the left of `y` but may touch it:
//
//             | y = ∅ | y = [c, d]
// ------------+-------+------------
//  x = ∅      | true  | true
//  x = [a, b] | true  | b ≤ c
pub fn precedes(x: EndPair, y: EndPair) -> bool
    requires { Bare binary64 (pair_of x) × Bare binary64 (pair_of y) }
    ensures { Answers (EachEach ◌≼◌ (set_of binary64 (pair_of x)) (set_of binary64 (pair_of y))) result }
{
    either_empty(x, y) || key(x.b) <= key(y.a)
}

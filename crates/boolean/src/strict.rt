// Whether members of two intervals that were judged already are in the order <, by their ends. The intervals are x = [a, b] and y = [c, d], or ∅.
ghost use Rattle.patterns.specs.Format.{binary64};
ghost use Rattle.meaning.specs.Fraction.{◌≺◌};
ghost use Rattle.meaning.specs.Pairs.{Bare, set_of};
ghost use Rattle.meaning.specs.Comparisons.{EachSome, EachEach, More};
ghost use Rattle.truth.specs.Answers.{Answers};
ghost use Rattle.end_pairs.specs.EndPairMeaning.{pair_of};

use end_pairs::{EndPair, INFINITY, either_empty, is_empty_pair, key, mirrored};

// Whether each member of `x` has a greater one in `y`:
//
//             | y = ∅ | y = [c, d]
// ------------+-------+------------
//  x = ∅      | true  | true
//  x = [a, b] | false | b <' d
//
// where b <' d :⟺ b < d ∨ b = d = +∞. With d = +∞ one of the two holds.
pub fn passes(x: EndPair, y: EndPair) -> bool
    requires { Bare binary64 (pair_of x) × Bare binary64 (pair_of y) }
    ensures { Answers (EachSome ◌≺◌ (set_of binary64 (pair_of x)) (set_of binary64 (pair_of y))) result }
{
    if either_empty(x, y) {
        return is_empty_pair(x);
    }
    key(x.b) < key(y.b) || y.b == INFINITY
}

// Whether each member of `x` has a lesser one in `y`: c <' a  ⟺  -a <' -c.
pub fn passes_down(x: EndPair, y: EndPair) -> bool
    requires { Bare binary64 (pair_of x) × Bare binary64 (pair_of y) }
    ensures { Answers (EachSome More (set_of binary64 (pair_of x)) (set_of binary64 (pair_of y))) result }
{
    passes(mirrored(x), mirrored(y))
}

// Whether `x` is strictly to the left of `y`:
//
//             | y = ∅ | y = [c, d]
// ------------+-------+------------
//  x = ∅      | true  | true
//  x = [a, b] | true  | b < c
pub fn strict_precedes(x: EndPair, y: EndPair) -> bool
    requires { Bare binary64 (pair_of x) × Bare binary64 (pair_of y) }
    ensures { Answers (EachEach ◌≺◌ (set_of binary64 (pair_of x)) (set_of binary64 (pair_of y))) result }
{
    either_empty(x, y) || key(x.b) < key(y.a)
}

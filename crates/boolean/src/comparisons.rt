// The comparisons of two intervals that were judged already, x = [a, b] and y = [c, d], or ∅.
ghost use Rattle.patterns.specs.Format.{binary64};
ghost use Rattle.meaning.specs.Pairs.{Bare, set_of};
ghost use Rattle.meaning.specs.Statement.{JudgedDecorated, sound};
ghost use Rattle.meaning.specs.Comparisons as meant;
ghost use Rattle.meaning.specs.Comparisons.{Compares, PairsCompare};
ghost use Rattle.truth.specs.Answers.{Answers};
ghost use Rattle.end_pairs.specs.EndPairMeaning.{pair_of};
ghost use Rattle.dec_interval.specs.DecIntervalMeaning.{dec_pair_of};
ghost use Rattle.operation_names.specs.Names.{comparison_of};

use crate::strict::{passes, passes_down, strict_precedes};
use crate::weak::{precedes, reaches, reaches_down};
use dec_interval::DecInterval;
use end_pairs::EndPair;
use operation_names::Comparison;
use operation_steps::two_operands;

// Whether `x` is a subset of `y`:
//
//             | y = ∅ | y = [c, d]
// ------------+-------+---------------
//  x = ∅      | true  | true
//  x = [a, b] | false | c ≤ a ∧ b ≤ d
fn subset(x: EndPair, y: EndPair) -> bool
    requires { Bare binary64 (pair_of x) × Bare binary64 (pair_of y) }
    ensures { Answers (Compares meant.subset (set_of binary64 (pair_of x)) (set_of binary64 (pair_of y))) result }
{
    reaches(x, y) && reaches_down(x, y)
}

// Whether `x` and `y` have the same members.
fn equal(x: EndPair, y: EndPair) -> bool
    requires { Bare binary64 (pair_of x) × Bare binary64 (pair_of y) }
    ensures { Answers (Compares meant.equal (set_of binary64 (pair_of x)) (set_of binary64 (pair_of y))) result }
{
    subset(x, y) && subset(y, x)
}

// Whether `x` is interior to `y`:
//
//             | y = ∅ | y = [c, d]
// ------------+-------+-----------------
//  x = ∅      | true  | true
//  x = [a, b] | false | c <' a ∧ b <' d
//
// where an infinite end does not count as touching: x <' y :⟺ x < y ∨ x = y = -∞ ∨ x = y = +∞.
fn interior(x: EndPair, y: EndPair) -> bool
    requires { Bare binary64 (pair_of x) × Bare binary64 (pair_of y) }
    ensures { Answers (Compares meant.interior (set_of binary64 (pair_of x)) (set_of binary64 (pair_of y))) result }
{
    passes(x, y) && passes_down(x, y)
}

// Whether `x` and `y` have no member in common:
//
//             | y = ∅ | y = [c, d]
// ------------+-------+---------------
//  x = ∅      | true  | true
//  x = [a, b] | true  | b < c ∨ d < a
fn disjoint(x: EndPair, y: EndPair) -> bool
    requires { Bare binary64 (pair_of x) × Bare binary64 (pair_of y) }
    ensures { Answers (Compares meant.disjoint (set_of binary64 (pair_of x)) (set_of binary64 (pair_of y))) result }
{
    strict_precedes(x, y) || strict_precedes(y, x)
}

// Whether `x` is weakly less than `y`:
//
//             | y = ∅ | y = [c, d]
// ------------+-------+---------------
//  x = ∅      | true  | false
//  x = [a, b] | false | a ≤ c ∧ b ≤ d
fn less(x: EndPair, y: EndPair) -> bool
    requires { Bare binary64 (pair_of x) × Bare binary64 (pair_of y) }
    ensures { Answers (Compares meant.less (set_of binary64 (pair_of x)) (set_of binary64 (pair_of y))) result }
{
    reaches(x, y) && reaches_down(y, x)
}

// Whether `x` is strictly less than `y`:
//
//             | y = ∅ | y = [c, d]
// ------------+-------+-----------------
//  x = ∅      | true  | false
//  x = [a, b] | false | a <' c ∧ b <' d
fn strict_less(x: EndPair, y: EndPair) -> bool
    requires { Bare binary64 (pair_of x) × Bare binary64 (pair_of y) }
    ensures { Answers (Compares meant.strict_less (set_of binary64 (pair_of x)) (set_of binary64 (pair_of y))) result }
{
    passes(x, y) && passes_down(y, x)
}

// Whether two bare intervals compare, by their ends. Each name has its function in an arm: a table of pointers would lose their clauses.
pub fn compares(c: Comparison, x: EndPair, y: EndPair) -> bool
    requires { Bare binary64 (pair_of x) × Bare binary64 (pair_of y) }
    ensures { Answers (Compares (comparison_of c) (set_of binary64 (pair_of x)) (set_of binary64 (pair_of y))) result }
{
    match c {
        Comparison::Equal => equal(x, y),
        Comparison::Subset => subset(x, y),
        Comparison::Interior => interior(x, y),
        Comparison::Disjoint => disjoint(x, y),
        Comparison::Less => less(x, y),
        Comparison::StrictLess => strict_less(x, y),
        Comparison::Precedes => precedes(x, y),
        Comparison::StrictPrecedes => strict_precedes(x, y),
    }
}

// Whether two decorated intervals compare, by their interval parts. NaI has none, and compares to nothing.
pub fn compares_dec(c: Comparison, x: DecInterval, y: DecInterval) -> bool
    requires { JudgedDecorated binary64 (dec_pair_of x) sound × JudgedDecorated binary64 (dec_pair_of y) sound }
    ensures { Answers (PairsCompare binary64 (comparison_of c) (dec_pair_of x).pair (dec_pair_of y).pair) result }
{
    match two_operands(x, y) {
        Some(_) => compares(c, x.x.ends, y.x.ends),
        None => false,
    }
}

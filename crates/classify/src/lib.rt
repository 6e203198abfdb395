// The class of two ends by their signs.
#![tactic(auto)]

ghost use Rattle.patterns.specs.Format.{binary64};
ghost use Rattle.meaning.specs.Classes.{ClassOf};
ghost use Rattle.meaning.specs.Pairs.{Bare, set_of};
ghost use Rattle.end_pairs.specs.EndPairMeaning.{pair_of};
ghost use Rattle.classify.specs.ClassMeaning.{class_of};

use end_pairs::{EndPair, SIGN, is_empty_pair, key};
use std::cmp::Ordering;

// The following codes are used to represent the class of an interval:
//
//  Code | Description
// ------+---------------
//     E | Empty
//     M | a < 0 < b
//    N0 | a < 0 ∧ b = 0
//    N1 | b < 0
//    P0 | a = 0 ∧ 0 < b
//    P1 | 0 < a
//     Z | a = b = 0
//    N* | a < 0 ∧ b ≤ 0
//    P* | 0 ≤ a ∧ 0 < b
// * These codes are used only in comments. (The crate's own comment has "a = 0 ∧ 0 ≤ b" for P*; its tables mean P0 and P1.)
#[derive(Clone, Copy)]
pub enum IntervalClass {
    E,
    M,
    N0,
    N1,
    P0,
    P1,
    Z,
}

// The key of both zeros, with which the keys of the ends are compared.
const ZERO: u64 = SIGN;

// The class of two ends that were judged already.
pub fn classify(x: EndPair) -> IntervalClass
    requires { Bare binary64 (pair_of x) }
    ensures { ClassOf (set_of binary64 (pair_of x)) (class_of result) }
{
    if is_empty_pair(x) {
        return IntervalClass::E;
    }
    match (key(x.a).cmp(&ZERO), key(x.b).cmp(&ZERO)) {
        (Ordering::Less, Ordering::Less) => IntervalClass::N1,
        (Ordering::Less, Ordering::Equal) => IntervalClass::N0,
        (Ordering::Less, Ordering::Greater) => IntervalClass::M,
        // No interval's upper end is below its lower one.
        (Ordering::Equal, Ordering::Less) => IntervalClass::N1,
        (Ordering::Equal, Ordering::Equal) => IntervalClass::Z,
        (Ordering::Equal, Ordering::Greater) => IntervalClass::P0,
        (Ordering::Greater, _) => IntervalClass::P1,
    }
}

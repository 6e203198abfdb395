// The arithmetic operations on bare intervals that were judged already, with the exactness of each end. They stand on the operations by
// name (`operations`), whose answers they give, and on what makes an end exact (`arith`).
#![tactic(auto)]

ghost use Rattle.patterns.specs.Format.{binary64};
ghost use Rattle.meaning.specs.Pairs.{Bare, set_of};
ghost use Rattle.meaning.specs.Points.{neg};
ghost use Rattle.meaning.specs.Results.{Result₁, Result₂};
ghost use Rattle.meaning.specs.Exactness.{ExactHullOf};
ghost use Rattle.end_pairs.specs.EndPairMeaning as two;
ghost use Rattle.interval.specs.IntervalMeaning.{pair_of};
ghost use Rattle.arith.specs.ExactFor.{ExactFor};
ghost use Rattle.operation_names.specs.Names.{arithmetic_of};
ghost use Rattle.exact_operations.specs.ExactIntervals.{exact_pair_of};

use arith::{
    Exactness, difference_exactness, product_exactness, quotient_exactness, sum_exactness,
};
use end_pairs::EndPair;
use interval::Interval;
use operation_names::{Arithmetic, Binary, Unary};
use operations::{combine, image};

// An interval, and for each end whether it is the true bound of all results.
#[derive(Clone, Copy)]
pub struct ExactInterval {
    pub x: Interval,
    pub exact: Exactness,
}

// Negation rounds nothing.
pub fn negate_exact(x: Interval) -> ExactInterval
    requires { Bare binary64 (pair_of x) }
    ensures { ExactHullOf binary64 (Result₁ neg (set_of binary64 (pair_of x))) (exact_pair_of result) }
{
    ExactInterval {
        x: image(Unary::Neg, x),
        exact: Exactness::BOTH,
    }
}

// Each name has its function in an arm: a table of pointers would lose their clauses.
fn exactness(o: Arithmetic, x: EndPair, y: EndPair) -> Exactness
    requires { Bare binary64 (two.pair_of x) × Bare binary64 (two.pair_of y) }
    ensures { ExactFor binary64 (Result₂ (arithmetic_of o) (set_of binary64 (two.pair_of x)) (set_of binary64 (two.pair_of y))) result }
{
    match o {
        Arithmetic::Add => sum_exactness(x, y),
        Arithmetic::Sub => difference_exactness(x, y),
        Arithmetic::Mul => product_exactness(x, y),
        Arithmetic::Div => quotient_exactness(x, y),
    }
}

pub fn combine_exact(o: Arithmetic, x: Interval, y: Interval) -> ExactInterval
    requires { Bare binary64 (pair_of x) × Bare binary64 (pair_of y) }
    ensures { ExactHullOf binary64 (Result₂ (arithmetic_of o) (set_of binary64 (pair_of x)) (set_of binary64 (pair_of y))) (exact_pair_of result) }
{
    ExactInterval {
        x: combine(Binary::from(o), x, y),
        exact: exactness(o, x.ends, y.ends),
    }
}

// The hull of an operation's results on bare intervals.
ghost use Rattle.patterns.specs.Format.{binary64};
ghost use Rattle.meaning.specs.Pairs.{Bare, set_of};
ghost use Rattle.meaning.specs.Results.{Result₁, Result₂};
ghost use Rattle.meaning.specs.Statement.{HullOf};
ghost use Rattle.end_pairs.specs.EndPairMeaning as two;
ghost use Rattle.interval.specs.IntervalMeaning.{pair_of};
ghost use Rattle.operation_names.specs.Names.{unary_of, binary_of};

use absmax::{abs_of, max_of, min_of};
use arith::{add_of, div_of, mul_of, neg_of, sub_of};
use end_pairs::EndPair;
use integer::image_of;
use interval::Interval;
use operation_names::{Binary, Unary};
use set_op::{convex_hull_of, intersection_of};

// The ends of the results, by the ends of the operands. Each name has its function in an arm: a table of pointers would lose their clauses.
fn image_ends(f: Unary, x: EndPair) -> EndPair
    requires { Bare binary64 (two.pair_of x) }
    ensures { HullOf binary64 (Result₁ (unary_of f) (set_of binary64 (two.pair_of x))) (two.pair_of result) }
{
    match f {
        Unary::Neg => neg_of(x),
        Unary::Abs => abs_of(x),
        Unary::Whole(g) => image_of(g, x),
    }
}

pub fn image(f: Unary, x: Interval) -> Interval
    requires { Bare binary64 (pair_of x) }
    ensures { HullOf binary64 (Result₁ (unary_of f) (set_of binary64 (pair_of x))) (pair_of result) }
{
    Interval::from_ends(image_ends(f, x.ends))
}

fn combine_ends(o: Binary, x: EndPair, y: EndPair) -> EndPair
    requires { Bare binary64 (two.pair_of x) × Bare binary64 (two.pair_of y) }
    ensures { HullOf binary64 (Result₂ (binary_of o) (set_of binary64 (two.pair_of x)) (set_of binary64 (two.pair_of y))) (two.pair_of result) }
{
    match o {
        Binary::Add => add_of(x, y),
        Binary::Sub => sub_of(x, y),
        Binary::Mul => mul_of(x, y),
        Binary::Div => div_of(x, y),
        Binary::ConvexHull => convex_hull_of(x, y),
        Binary::Intersection => intersection_of(x, y),
        Binary::Max => max_of(x, y),
        Binary::Min => min_of(x, y),
    }
}

pub fn combine(o: Binary, x: Interval, y: Interval) -> Interval
    requires { Bare binary64 (pair_of x) × Bare binary64 (pair_of y) }
    ensures { HullOf binary64 (Result₂ (binary_of o) (set_of binary64 (pair_of x)) (set_of binary64 (pair_of y))) (pair_of result) }
{
    Interval::from_ends(combine_ends(o, x.ends, y.ends))
}

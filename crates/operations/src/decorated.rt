// The right answer on decorated intervals: NaI if an operand is, and else the bare answer with its decoration.
ghost use Rattle.patterns.specs.Format.{binary64};
ghost use Rattle.meaning.specs.Sets.{Set};
ghost use Rattle.meaning.specs.Pairs.{Bare, set_of};
ghost use Rattle.meaning.specs.Results.{Result₁};
ghost use Rattle.meaning.specs.Decorations.{Allows₁, Allows₂};
ghost use Rattle.meaning.specs.Statement.{HullOf, JudgedDecorated, sound, RightDec₁, RightDec₂};
ghost use Rattle.end_pairs.specs.EndPairMeaning.{pair_of};
ghost use Rattle.decorations.specs.DecorationMeaning.{decoration_of};
ghost use Rattle.dec_interval.specs.DecIntervalMeaning.{dec_pair_of};
ghost use Rattle.operation_names.specs.Names.{unary_of, binary_of};

use crate::bare::{combine, image};
use arith_ends::divided_decoration;
use dec_interval::DecInterval;
use decorations::Decoration;
use end_pairs::EndPair;
use integer::allowed;
use operation_names::{Binary, Unary};
use operation_steps::{decorate, one_operand, two_operands};

// The highest decoration that the result `z` on the operand `x` may have.
fn allowed_one(f: Unary, x: EndPair, z: EndPair) -> Decoration
    requires { Bare binary64 (pair_of x) × HullOf binary64 (Result₁ (unary_of f) (set_of binary64 (pair_of x))) (pair_of z) }
    ensures { Allows₁ (unary_of f) (set_of binary64 (pair_of x)) (set_of binary64 (pair_of z)) (decoration_of result) }
{
    match f {
        Unary::Neg | Unary::Abs => Decoration::Com,
        Unary::Whole(g) => allowed(g, x, z),
    }
}

// The highest decoration that a result with the second operand `y` may have.
fn allowed_two(o: Binary, y: EndPair) -> Decoration
    requires { Bare binary64 (pair_of y) }
    ensures { (X : Set) → Allows₂ (binary_of o) X (set_of binary64 (pair_of y)) (decoration_of result) }
{
    match o {
        Binary::Add | Binary::Sub | Binary::Mul | Binary::Max | Binary::Min => Decoration::Com,
        Binary::Div => divided_decoration(y),
        Binary::ConvexHull | Binary::Intersection => Decoration::Trv,
    }
}

pub fn image_dec(f: Unary, x: DecInterval) -> DecInterval
    requires { JudgedDecorated binary64 (dec_pair_of x) sound }
    ensures { RightDec₁ binary64 (unary_of f) (dec_pair_of x) (dec_pair_of result) }
{
    match one_operand(x) {
        Some(d) => {
            let z = image(f, x.x);
            decorate(z, allowed_one(f, x.x.ends, z.ends), d)
        }
        None => DecInterval::NAI,
    }
}

pub fn combine_dec(o: Binary, x: DecInterval, y: DecInterval) -> DecInterval
    requires { JudgedDecorated binary64 (dec_pair_of x) sound × JudgedDecorated binary64 (dec_pair_of y) sound }
    ensures { RightDec₂ binary64 (binary_of o) (dec_pair_of x) (dec_pair_of y) (dec_pair_of result) }
{
    match two_operands(x, y) {
        Some(d) => decorate(combine(o, x.x, y.x), allowed_two(o, y.x.ends), d),
        None => DecInterval::NAI,
    }
}

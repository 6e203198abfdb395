// The decoration of a function's result.
ghost use Rattle.patterns.specs.Format.{binary64};
ghost use Rattle.meaning.specs.Pairs.{Bare, set_of};
ghost use Rattle.meaning.specs.Results.{Result₁};
ghost use Rattle.meaning.specs.Decorations.{Allows₁};
ghost use Rattle.meaning.specs.Statement.{HullOf};
ghost use Rattle.end_pairs.specs.EndPairMeaning.{pair_of};
ghost use Rattle.decorations.specs.DecorationMeaning.{decoration_of};
ghost use Rattle.wholes.specs.Made.{operation};

use crate::jumps::jumps;
use decorations::Decoration;
use end_pairs::{EndPair, is_empty_pair, is_point};
use wholes::Function;

// The highest decoration that a function's result `z` on the operand `x` may have.
pub fn allowed(f: Function, x: EndPair, z: EndPair) -> Decoration
    requires { Bare binary64 (pair_of x) × HullOf binary64 (Result₁ (operation f) (set_of binary64 (pair_of x))) (pair_of z) }
    ensures { Allows₁ (operation f) (set_of binary64 (pair_of x)) (set_of binary64 (pair_of z)) (decoration_of result) }
{
    if is_empty_pair(z) {
        return Decoration::Trv;
    }
    if !is_point(z) {
        return Decoration::Def;
    }
    if jumps(f, x, z) {
        return Decoration::Dac;
    }
    Decoration::Com
}

// The hull of a function's results.
ghost use Rattle.patterns.specs.Format.{binary64};
ghost use Rattle.meaning.specs.Pairs.{Bare, set_of};
ghost use Rattle.meaning.specs.Results.{Result₁};
ghost use Rattle.meaning.specs.Statement.{HullOf};
ghost use Rattle.end_pairs.specs.EndPairMeaning.{pair_of};
ghost use Rattle.wholes.specs.Made.{operation};

use crate::ends::upper_end;
use end_pairs::{EndPair, is_empty_pair, opposite, outward};
use wholes::{Function, mirrored};

// On an interval with members, the lower end is the upper end of the mirrored function.
pub fn image_of(f: Function, x: EndPair) -> EndPair
    requires { Bare binary64 (pair_of x) }
    ensures { HullOf binary64 (Result₁ (operation f) (set_of binary64 (pair_of x))) (pair_of result) }
{
    if is_empty_pair(x) {
        return EndPair::EMPTY;
    }
    outward(upper_end(mirrored(f), opposite(x.a)), upper_end(f, x.b))
}

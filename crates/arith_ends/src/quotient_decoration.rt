// What a divisor says of a quotient.
ghost use Rattle.patterns.specs.Format.{binary64};
ghost use Rattle.meaning.specs.Pairs.{Bare, set_of};
ghost use Rattle.meaning.specs.Decorations.{Divided};
ghost use Rattle.end_pairs.specs.EndPairMeaning.{pair_of};
ghost use Rattle.decorations.specs.DecorationMeaning.{decoration_of};

use classify::classify;
use decorations::Decoration;
use end_pairs::EndPair;
use kinds::allowed;

// What division allows at the most: Trv if the divisor holds 0.
pub fn divided_decoration(y: EndPair) -> Decoration
    requires { Bare binary64 (pair_of y) }
    ensures { Divided (set_of binary64 (pair_of y)) (decoration_of result) }
{
    allowed(classify(y))
}

// Which decoration two ends that were judged already keep.
ghost use Rattle.std.specs.Prelude.{◌≡◌};
ghost use Rattle.patterns.specs.Format.{binary64};
ghost use Rattle.meaning.specs.Pairs.{Bare, set_of};
ghost use Rattle.meaning.specs.Decorations as meant;
ghost use Rattle.end_pairs.specs.EndPairMeaning.{pair_of};
ghost use Rattle.decorations.specs.DecorationMeaning.{decoration_of};

use crate::order::lower_decoration;
use crate::types::Decoration;
use end_pairs::{EndPair, is_bounded, is_empty_pair};

// The highest decoration that goes with two ends.
fn highest(x: EndPair) -> Decoration
    requires { Bare binary64 (pair_of x) }
    ensures { decoration_of result ≡ meant.settled (set_of binary64 (pair_of x)) meant.Com }
{
    if is_empty_pair(x) {
        return Decoration::Trv;
    }
    if is_bounded(x) {
        return Decoration::Com;
    }
    Decoration::Dac
}

// The decoration that `set_dec` gives to an interval with these ends: the one asked for, or the highest that goes with it if that is lower.
pub fn settled(x: EndPair, d: Decoration) -> Decoration
    requires { Bare binary64 (pair_of x) }
    ensures { decoration_of result ≡ meant.settled (set_of binary64 (pair_of x)) (decoration_of d) }
{
    lower_decoration(d, highest(x))
}

// Decorated intervals made of parts that were judged already, with their zeros, and NaI with its ends, as the bytes have them.
ghost use Rattle.patterns.specs.Format.{binary64};
ghost use Rattle.meaning.specs.Pairs.{Bare};
ghost use Rattle.meaning.specs.Statement.{Ends};
ghost use Rattle.meaning.specs.Bytes.{TidiedDec};
ghost use Rattle.end_pairs.specs.EndPairMeaning.{pair_of};
ghost use Rattle.interval.specs.IntervalMeaning as interval;
ghost use Rattle.decorations.specs.DecorationMeaning.{decoration_of};
ghost use Rattle.dec_interval.specs.DecIntervalMeaning.{dec_pair_of};
ghost use Rattle.dec_interval.specs.Values.{SetDec};

use crate::types::DecInterval;
use decorations::{Decoration, settled};
use end_pairs::{EndPair, are_nans, canonical};
use interval::Interval;

// The decorated interval with these ends and this decoration.
pub fn canonical_dec(ends: EndPair, d: Decoration) -> DecInterval
    requires { Ends binary64 (pair_of ends) }
    ensures { TidiedDec binary64 (record { pair = pair_of ends; decoration = decoration_of d }) (dec_pair_of result) }
{
    if are_nans(ends) {
        return DecInterval::NAI;
    }
    DecInterval {
        x: Interval::from_ends(canonical(ends)),
        d,
    }
}

// The interval with the decoration that `set_dec` gives to it, or NaI.
pub fn with_decoration(x: Interval, d: Decoration) -> DecInterval
    requires { Bare binary64 (interval.pair_of x) }
    ensures { SetDec binary64 (decoration_of d) (interval.pair_of x) (dec_pair_of result) }
{
    if d == Decoration::Ill {
        return DecInterval::NAI;
    }
    DecInterval {
        x: Interval::from_ends(canonical(x.ends)),
        d: settled(x.ends, d),
    }
}

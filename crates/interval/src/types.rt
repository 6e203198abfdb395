// The bare interval.
ghost use Rattle.std.specs.Prelude.{◌≡◌};
ghost use Rattle.patterns.specs.Format.{binary64};
ghost use Rattle.meaning.specs.Pairs.{Bare};
ghost use Rattle.end_pairs.specs.EndPairMeaning as two;
ghost use Rattle.interval.specs.IntervalMeaning.{pair_of};

use end_pairs::EndPair;

// An interval with f64 bounds, as the bit patterns of its ends.
#[derive(Clone, Copy)]
pub struct Interval {
    pub ends: EndPair,
}

impl Interval {
    pub const EMPTY: Interval = Interval {
        ends: EndPair::EMPTY,
    };

    pub const ENTIRE: Interval = Interval {
        ends: EndPair::ENTIRE,
    };

    // The interval with two ends that were judged already. Every interval but the constants is made here.
    pub fn from_ends(ends: EndPair) -> Interval
        requires { Bare binary64 (two.pair_of ends) }
        ensures { pair_of result ≡ two.pair_of ends }
    {
        Interval { ends }
    }
}

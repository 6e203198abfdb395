// The overlapping state of intervals that were judged already.
ghost use Rattle.patterns.specs.Format.{binary64};
ghost use Rattle.meaning.specs.Pairs.{Bare, set_of};
ghost use Rattle.meaning.specs.Overlap.{OverlapOf, DecoratedOverlap};
ghost use Rattle.meaning.specs.Statement.{JudgedDecorated, sound};
ghost use Rattle.end_pairs.specs.EndPairMeaning.{pair_of};
ghost use Rattle.dec_interval.specs.DecIntervalMeaning.{dec_pair_of};
ghost use Rattle.overlap.specs.OverlapMeaning.{state_of, dec_number_of};

use crate::ends::compare;
use crate::state::Overlap;
use dec_interval::DecInterval;
use end_pairs::{EndPair, is_empty_pair, key};
use operation_steps::two_operands;

// The state of two bare intervals by their ends.
pub fn overlap_of(x: EndPair, y: EndPair) -> Overlap
    requires { Bare binary64 (pair_of x) × Bare binary64 (pair_of y) }
    ensures { OverlapOf (set_of binary64 (pair_of x)) (set_of binary64 (pair_of y)) (state_of result) }
{
    match (is_empty_pair(x), is_empty_pair(y)) {
        (true, true) => Overlap::BothEmpty,
        (true, false) => Overlap::FirstEmpty,
        (false, true) => Overlap::SecondEmpty,
        (false, false) => compare(key(x.a), key(x.b), key(y.a), key(y.b)),
    }
}

// The state of two decorated intervals, by their interval parts. NaI has none.
pub fn overlap_of_dec(x: DecInterval, y: DecInterval) -> Option<Overlap>
    requires { JudgedDecorated binary64 (dec_pair_of x) sound × JudgedDecorated binary64 (dec_pair_of y) sound }
    ensures { DecoratedOverlap binary64 (dec_pair_of x) (dec_pair_of y) (dec_number_of result) }
{
    two_operands(x, y)?;
    Some(overlap_of(x.x.ends, y.x.ends))
}

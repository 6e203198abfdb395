// The overlapping state of two intervals. The functions of this file take any value; those below stand on two ends that were judged.
#![tactic(auto)]

ghost use Rattle.patterns.specs.Format.{binary64};
ghost use Rattle.meaning.specs.Overlap.{BareOverlap, DecOverlap};
ghost use Rattle.refusals.specs.RefusalMeaning.{outcome_of};
ghost use Rattle.interval.specs.IntervalMeaning.{pair_of};
ghost use Rattle.dec_interval.specs.DecIntervalMeaning.{dec_pair_of};
ghost use Rattle.overlap.specs.OverlapMeaning.{number_of, dec_number_of};

mod ends;
mod numbers;
mod state;
mod valid;

use dec_interval::DecInterval;
use interval::Interval;
pub use numbers::dec_state_number;
use operation_steps::judge_two;
use refusals::Refusal;
pub use state::Overlap;
pub use valid::{overlap_of, overlap_of_dec};

// The overlapping state of `x` and `y`. See `Overlap` for the possible states.
pub fn overlap(x: Interval, y: Interval) -> Result<Overlap, Refusal>
    ensures { BareOverlap binary64 (pair_of x) (pair_of y) (outcome_of number_of result) }
{
    judge_two(x, y)?;
    Ok(overlap_of(x.ends, y.ends))
}

// The decorated version of `overlap`. NaI has no state, and two bare intervals always have one: so each form has a function of its own.
pub fn overlap_dec(x: DecInterval, y: DecInterval) -> Result<Option<Overlap>, Refusal>
    ensures { DecOverlap binary64 (dec_pair_of x) (dec_pair_of y) (outcome_of dec_number_of result) }
{
    judge_two(x, y)?;
    Ok(overlap_of_dec(x, y))
}

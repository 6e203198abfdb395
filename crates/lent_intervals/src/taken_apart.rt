// Seventeen bytes once they are taken apart: a decoration, and two ends.
ghost use Rattle.std.specs.Prelude.{◌≡◌};
ghost use Rattle.patterns.specs.Format.{binary64};
ghost use Rattle.meaning.specs.Statement.{sound, Answered₁};
ghost use Rattle.refusals.specs.RefusalMeaning.{first_outcome};
ghost use Rattle.decorations.specs.DecorationMeaning.{decoration_of};
ghost use Rattle.dec_interval.specs.DecIntervalMeaning.{dec_pair_of};
ghost use Rattle.end_pairs.specs.EndPairMeaning.{pair_of};
ghost use Rattle.lent_intervals.specs.Reading.{JudgedRead};

use crate::canonical::has_bytes_ends;
use dec_interval::DecInterval;
use decorations::{Decoration, judge_dec};
use end_pairs::{EndPair, are_nans};
use interval::Interval;
use refusals::Fault;

// The decorated interval with ends and a decoration that were judged already.
fn read_as(ends: EndPair, d: Decoration) -> DecInterval
    requires { JudgedRead binary64 (record { pair = pair_of ends; decoration = decoration_of d }) sound }
    ensures { dec_pair_of result ≡ record { pair = pair_of ends; decoration = decoration_of d } }
{
    if are_nans(ends) {
        return DecInterval::NAI;
    }
    DecInterval {
        x: Interval::from_ends(ends),
        d,
    }
}

// The ends and the decoration that were read, judged and answered.
pub fn answer_read(ends: EndPair, d: Decoration) -> Result<DecInterval, Fault>
    ensures { Answered₁ (JudgedRead binary64) (λ x z. z ≡ x) (record { pair = pair_of ends; decoration = decoration_of d }) (first_outcome dec_pair_of result) }
{
    if !has_bytes_ends(ends) {
        return Err(Fault::BadEnds);
    }
    judge_dec(ends, d)?;
    Ok(read_as(ends, d))
}

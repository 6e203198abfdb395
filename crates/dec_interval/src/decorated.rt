// Decorated intervals on any value: made, and taken apart.
ghost use Rattle.std.specs.Prelude.{◌≡◌};
ghost use Rattle.patterns.specs.Format.{binary64};
ghost use Rattle.meaning.specs.Pairs.{NaNs};
ghost use Rattle.meaning.specs.Decorations as meant;
ghost use Rattle.meaning.specs.Statement.{Answered₁, JudgedBare, JudgedDecorated};
ghost use Rattle.meaning.specs.Bytes.{TidiedDec};
ghost use Rattle.truth.specs.Answers.{Answers};
ghost use Rattle.refusals.specs.RefusalMeaning.{outcome, outcome_of};
ghost use Rattle.interval.specs.IntervalMeaning.{pair_of};
ghost use Rattle.decorations.specs.DecorationMeaning.{decoration_of};
ghost use Rattle.dec_interval.specs.DecIntervalMeaning.{dec_pair_of, part_of};
ghost use Rattle.dec_interval.specs.Values.{SetDec, PartOf};

use crate::made::{canonical_dec, with_decoration};
use crate::types::DecInterval;
use decorations::{Decoration, judge_dec};
use end_pairs::{EndPair, are_nans, canonical};
use interval::{Form, Interval};
use refusals::Refusal;

impl DecInterval {
    // The interval [a, b], or EMPTY from EMPTY's ends, with the highest decoration that goes with it.
    pub fn try_from(a: u64, b: u64) -> Result<DecInterval, Refusal>
        ensures { Answered₁ (JudgedBare binary64) (SetDec binary64 meant.Com) (record { lower = a; upper = b }) (outcome_of dec_pair_of result) }
    {
        DecInterval::new(Interval::try_from(a, b)?)
    }

    // The interval [a, b] with a decoration, or EMPTY or NaI from their ends.
    pub fn try_from_parts(a: u64, b: u64, d: Decoration) -> Result<DecInterval, Refusal>
        ensures { Answered₁ (JudgedDecorated binary64) (TidiedDec binary64) (record { pair = record { lower = a; upper = b }; decoration = decoration_of d }) (outcome_of dec_pair_of result) }
    {
        let ends = EndPair { a, b };
        judge_dec(ends, d)?;
        Ok(canonical_dec(ends, d))
    }

    // The interval with the highest decoration that goes with it:
    //
    //  Interval             | Decoration
    // ----------------------+------------
    //  Nonempty and bounded | Com
    //  Unbounded            | Dac
    //  Empty                | Trv
    pub fn new(x: Interval) -> Result<DecInterval, Refusal>
        ensures { Answered₁ (JudgedBare binary64) (SetDec binary64 meant.Com) (pair_of x) (outcome_of dec_pair_of result) }
    {
        DecInterval::set_dec(x, Decoration::Com)
    }

    // The interval with a decoration. If the decoration does not go with the interval, the first one in the list is used:
    //
    //  Interval             | Decorations that go with it
    // ----------------------+-----------------------------
    //  Nonempty and bounded | Com, Dac, Def, Trv, Ill
    //  Unbounded            | Dac, Def, Trv, Ill
    //  Empty                | Trv, Ill
    pub fn set_dec(x: Interval, d: Decoration) -> Result<DecInterval, Refusal>
        ensures { Answered₁ (JudgedBare binary64) (SetDec binary64 (decoration_of d)) (pair_of x) (outcome_of dec_pair_of result) }
    {
        x.judge()?;
        Ok(with_decoration(x, d))
    }

    // The interval part, which NaI lacks.
    pub fn interval(self) -> Result<Option<Interval>, Refusal>
        ensures { Answered₁ (JudgedDecorated binary64) (PartOf binary64) (dec_pair_of self) (outcome_of part_of result) }
    {
        self.judge()?;
        let ends = self.x.ends;
        if are_nans(ends) {
            return Ok(None);
        }
        Ok(Some(Interval::from_ends(canonical(ends))))
    }

    // The decoration part.
    pub fn decoration(self) -> Result<Decoration, Refusal>
        ensures { Answered₁ (JudgedDecorated binary64) (λ x d. d ≡ x.decoration) (dec_pair_of self) (outcome_of decoration_of result) }
    {
        self.judge()?;
        Ok(self.d)
    }

    // Whether this is NaI.
    pub fn is_nai(self) -> Result<bool, Refusal>
        ensures { Answered₁ (JudgedDecorated binary64) (λ x. Answers (NaNs binary64 x.pair)) (dec_pair_of self) (outcome result) }
    {
        self.judge()?;
        Ok(are_nans(self.x.ends))
    }
}

// The interval part of a decorated interval: its ends, and what is asked of it.
ghost use Rattle.std.specs.Prelude.{◌≡◌};
ghost use Rattle.patterns.specs.Format.{binary64};
ghost use Rattle.meaning.specs.Sets.{Set, empty, span, unbounded};
ghost use Rattle.meaning.specs.Decorations.{Common, Point};
ghost use Rattle.meaning.specs.Statement.{Answered₁, JudgedDecorated};
ghost use Rattle.truth.specs.Answers.{Answers};
ghost use Rattle.refusals.specs.RefusalMeaning.{outcome};
ghost use Rattle.interval.specs.Values.{LowerOf, UpperOf};
ghost use Rattle.dec_interval.specs.DecIntervalMeaning.{dec_pair_of};
ghost use Rattle.dec_interval.specs.Values.{DecEndOf, OfPart};

use crate::types::DecInterval;
use end_pairs::QUIET_NAN;
use refusals::Refusal;

// What each end of NaI is answered as: it has none.
const NAI_END: u64 = QUIET_NAN;

// What each question of NaI's set is answered by: it has none, so it is not EMPTY either.
const OF_NAI: bool = false;

// Each method matches on the part by itself: one that is given the question as a closure would repeat its clause there.
impl DecInterval {
    // The lower bound of the interval part, and a NaN of NaI.
    pub fn inf(self) -> Result<u64, Refusal>
        ensures { Answered₁ (JudgedDecorated binary64) (DecEndOf binary64 (LowerOf binary64)) (dec_pair_of self) (outcome result) }
    {
        match self.interval()? {
            Some(part) => part.inf(),
            None => Ok(NAI_END),
        }
    }

    // The upper bound of the interval part, and a NaN of NaI.
    pub fn sup(self) -> Result<u64, Refusal>
        ensures { Answered₁ (JudgedDecorated binary64) (DecEndOf binary64 (UpperOf binary64)) (dec_pair_of self) (outcome result) }
    {
        match self.interval()? {
            Some(part) => part.sup(),
            None => Ok(NAI_END),
        }
    }

    // Whether the interval part has no members.
    pub fn is_empty(self) -> Result<bool, Refusal>
        ensures { Answered₁ (JudgedDecorated binary64) (λ x. Answers (OfPart binary64 (λ (Z : Set). Z ≡ empty) x)) (dec_pair_of self) (outcome result) }
    {
        match self.interval()? {
            Some(part) => part.is_empty(),
            None => Ok(OF_NAI),
        }
    }

    // Whether the interval part is [-inf, +inf].
    pub fn is_entire(self) -> Result<bool, Refusal>
        ensures { Answered₁ (JudgedDecorated binary64) (λ x. Answers (OfPart binary64 (λ (Z : Set). Z ≡ span unbounded unbounded) x)) (dec_pair_of self) (outcome result) }
    {
        match self.interval()? {
            Some(part) => part.is_entire(),
            None => Ok(OF_NAI),
        }
    }

    // Whether the interval part is nonempty and bounded.
    pub fn is_common_interval(self) -> Result<bool, Refusal>
        ensures { Answered₁ (JudgedDecorated binary64) (λ x. Answers (OfPart binary64 Common x)) (dec_pair_of self) (outcome result) }
    {
        match self.interval()? {
            Some(part) => part.is_common_interval(),
            None => Ok(OF_NAI),
        }
    }

    // Whether the interval part has exactly one member.
    pub fn is_singleton(self) -> Result<bool, Refusal>
        ensures { Answered₁ (JudgedDecorated binary64) (λ x. Answers (OfPart binary64 Point x)) (dec_pair_of self) (outcome result) }
    {
        match self.interval()? {
            Some(part) => part.is_singleton(),
            None => Ok(OF_NAI),
        }
    }
}

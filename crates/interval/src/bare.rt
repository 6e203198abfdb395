// Bare intervals on any value: made from two ends, taken apart, and asked about.
ghost use Rattle.std.specs.Prelude.{◌≡◌};
ghost use Rattle.patterns.specs.Format.{binary64};
ghost use Rattle.meaning.specs.Sets.{empty, span, unbounded};
ghost use Rattle.meaning.specs.Pairs.{set_of};
ghost use Rattle.meaning.specs.Classes.{ClassOf};
ghost use Rattle.meaning.specs.Decorations.{Common, Point};
ghost use Rattle.meaning.specs.Statement.{Answered₁, JudgedBare};
ghost use Rattle.meaning.specs.Bytes.{Tidied};
ghost use Rattle.truth.specs.Answers.{Answers};
ghost use Rattle.refusals.specs.RefusalMeaning.{outcome, outcome_of};
ghost use Rattle.classify.specs.ClassMeaning.{class_of};
ghost use Rattle.interval.specs.IntervalMeaning.{pair_of};
ghost use Rattle.interval.specs.Values.{LowerOf, UpperOf};

use crate::form::Form;
use crate::types::Interval;
use classify::{IntervalClass, classify};
use end_pairs::{EndPair, canonical, holds_all, is_bounded, is_empty_pair, is_point};
use refusals::Refusal;

impl Interval {
    // The interval [a, b], or EMPTY from EMPTY's ends.
    pub fn try_from(a: u64, b: u64) -> Result<Interval, Refusal>
        ensures { Answered₁ (JudgedBare binary64) (Tidied binary64) (record { lower = a; upper = b }) (outcome_of pair_of result) }
    {
        let ends = EndPair { a, b };
        Interval { ends }.judge()?;
        Ok(Interval::from_ends(canonical(ends)))
    }

    // The lower bound: -0.0 for a zero, and +inf of EMPTY.
    pub fn inf(self) -> Result<u64, Refusal>
        ensures { Answered₁ (JudgedBare binary64) (LowerOf binary64) (pair_of self) (outcome result) }
    {
        self.judge()?;
        Ok(canonical(self.ends).a)
    }

    // The upper bound: +0.0 for a zero, and -inf of EMPTY.
    pub fn sup(self) -> Result<u64, Refusal>
        ensures { Answered₁ (JudgedBare binary64) (UpperOf binary64) (pair_of self) (outcome result) }
    {
        self.judge()?;
        Ok(canonical(self.ends).b)
    }

    // Whether the interval has no members.
    pub fn is_empty(self) -> Result<bool, Refusal>
        ensures { Answered₁ (JudgedBare binary64) (λ x. Answers (set_of binary64 x ≡ empty)) (pair_of self) (outcome result) }
    {
        self.judge()?;
        Ok(is_empty_pair(self.ends))
    }

    // Whether the interval is [-inf, +inf].
    pub fn is_entire(self) -> Result<bool, Refusal>
        ensures { Answered₁ (JudgedBare binary64) (λ x. Answers (set_of binary64 x ≡ span unbounded unbounded)) (pair_of self) (outcome result) }
    {
        self.judge()?;
        Ok(holds_all(self.ends))
    }

    // Whether the interval is nonempty and bounded.
    pub fn is_common_interval(self) -> Result<bool, Refusal>
        ensures { Answered₁ (JudgedBare binary64) (λ x. Answers (Common (set_of binary64 x))) (pair_of self) (outcome result) }
    {
        self.judge()?;
        Ok(is_bounded(self.ends))
    }

    // Whether the interval has exactly one member.
    pub fn is_singleton(self) -> Result<bool, Refusal>
        ensures { Answered₁ (JudgedBare binary64) (λ x. Answers (Point (set_of binary64 x))) (pair_of self) (outcome result) }
    {
        self.judge()?;
        Ok(is_point(self.ends))
    }

    // The class of the interval by the signs of its ends.
    pub fn classify(self) -> Result<IntervalClass, Refusal>
        ensures { Answered₁ (JudgedBare binary64) (λ x. ClassOf (set_of binary64 x)) (pair_of self) (outcome_of class_of result) }
    {
        self.judge()?;
        Ok(classify(self.ends))
    }
}

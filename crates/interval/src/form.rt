// The forms in which an interval comes by value, and what is found of an operand that anybody can have written.
ghost use Rattle.patterns.specs.Format.{binary64};
ghost use Rattle.meaning.specs.Forms as meant;
ghost use Rattle.meaning.specs.Forms.{JudgedValue, Value, bare_form};
ghost use Rattle.meaning.specs.Statement.{Found₁};
ghost use Rattle.refusals.specs.RefusalMeaning.{verdict_of};
ghost use Rattle.interval.specs.IntervalMeaning.{pair_of};

use crate::types::Interval;
use end_pairs::is_bare;
use refusals::Fault;

// An interval by value in one of the forms, bare or decorated.
pub trait Form: Copy {
    ghost form: { meant.Form };

    // What the value is in the terms of document 01.
    ghost value: { Self → Value form };

    // Finds what is wrong with an operand, if anything is.
    fn judge(self) -> Result<(), Fault>
        ensures { Found₁ (JudgedValue binary64 form) (value self) (verdict_of result) };
}

impl Form for Interval {
    ghost form = { bare_form };

    ghost value = { pair_of };

    fn judge(self) -> Result<(), Fault> {
        if !is_bare(self.ends) {
            return Err(Fault::BadEnds);
        }
        Ok(())
    }
}

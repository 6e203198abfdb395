// How operands of either form are passed and answered.
use dec_interval::DecInterval;
use interval::Interval;
use operands::Operand;
use overlap::{Overlap, overlap, overlap_dec};
use refusals::{Fault, Refusal};
use value_records::replies::Answer;
use value_records::values;

// An interval that a record's operand is passed as.
pub trait Passed: Operand {
    // The operand, unless its form has a decoration and the byte is none.
    fn passed(o: values::Operand) -> Result<Self, Fault>;

    fn overlap(x: Self, y: Self) -> Result<Option<Overlap>, Refusal>;

    fn answer(self) -> Answer;
}

impl Passed for Interval {
    fn passed(o: values::Operand) -> Result<Interval, Fault> {
        Ok(o.bare())
    }

    fn overlap(x: Interval, y: Interval) -> Result<Option<Overlap>, Refusal> {
        Ok(Some(overlap(x, y)?))
    }

    fn answer(self) -> Answer {
        Answer::from(self)
    }
}

impl Passed for DecInterval {
    fn passed(o: values::Operand) -> Result<DecInterval, Fault> {
        o.decorated()
    }

    fn overlap(x: DecInterval, y: DecInterval) -> Result<Option<Overlap>, Refusal> {
        overlap_dec(x, y)
    }

    fn answer(self) -> Answer {
        Answer::from(self)
    }
}

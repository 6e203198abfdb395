// Functions that take a bare interval or its ends. Each has a number of its own.
use dec_interval::DecInterval;
use interchange::bare;
use interval::Interval;
use refusals::Refusal;
use value_records::replies::Answer;
use value_records::values::Operand;

// The answer of the function with a number.
pub fn call(number: u8, o: Operand) -> Result<Answer, Refusal> {
    let x = o.bare();
    match number {
        64 => Ok(Answer::from(Interval::try_from(o.ends.a, o.ends.b)?)),
        65 => Ok(Answer::end(x.inf()?)),
        66 => Ok(Answer::end(x.sup()?)),
        67 => Ok(Answer::from(x.is_empty()?)),
        68 => Ok(Answer::from(x.is_entire()?)),
        69 => Ok(Answer::from(x.is_common_interval()?)),
        70 => Ok(Answer::from(x.is_singleton()?)),
        71 => Ok(Answer::from(x.classify()?)),
        72 => Ok(Answer::from(DecInterval::new(x)?)),
        73 => Ok(Answer::from(DecInterval::set_dec(x, o.decoration?)?)),
        74 => Ok(Answer::bare_bytes(bare::to_be_bytes(x)?)),
        75 => Ok(Answer::bare_bytes(bare::to_le_bytes(x)?)),
        _ => Err(Refusal::UnknownOperation),
    }
}

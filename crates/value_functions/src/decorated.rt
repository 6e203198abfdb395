// Functions of decorated intervals, which take one, its parts, or two ends. Each has a number of its own.
use dec_interval::DecInterval;
use interchange::decorated;
use refusals::Refusal;
use value_records::replies::Answer;
use value_records::values::Operand;

// The answer of the function with a number.
pub fn call(number: u8, o: Operand) -> Result<Answer, Refusal> {
    match number {
        96 => Ok(Answer::from(DecInterval::try_from(o.ends.a, o.ends.b)?)),
        97 => Ok(Answer::end(o.decorated()?.inf()?)),
        98 => Ok(Answer::end(o.decorated()?.sup()?)),
        99 => Ok(Answer::from(o.decorated()?.is_empty()?)),
        100 => Ok(Answer::from(o.decorated()?.is_entire()?)),
        101 => Ok(Answer::from(o.decorated()?.is_common_interval()?)),
        102 => Ok(Answer::from(o.decorated()?.is_singleton()?)),
        103 => Ok(Answer::from(o.decorated()?.is_nai()?)),
        104 => Ok(Answer::from(o.decorated()?.interval()?)),
        105 => Ok(Answer::from(o.decorated()?.decoration()?)),
        106 => {
            let d = o.decoration?;
            Ok(Answer::from(DecInterval::try_from_parts(o.ends.a, o.ends.b, d)?))
        }
        107 => Ok(Answer::decorated_bytes(decorated::to_be_bytes(o.decorated()?)?)),
        108 => Ok(Answer::decorated_bytes(decorated::to_le_bytes(o.decorated()?)?)),
        _ => Err(Refusal::UnknownOperation),
    }
}

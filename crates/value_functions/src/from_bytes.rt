// Functions that take sixteen or seventeen bytes, and the constants. Each has a number of its own.
ghost use Rattle.std.specs.Prelude.{◌≤◌, length};

use dec_interval::DecInterval;
use interchange::{bare, decorated};
use interval::Interval;
use lent_intervals::{BARE, DECORATED};
use refusals::Refusal;
use value_records::replies::Answer;

fn first_sixteen(operand: &[u8]) -> [u8; BARE]
    requires { 16 ≤ length operand.now }
{
    let mut first = [0u8; BARE];
    first.copy_from_slice(&operand[0..BARE]);
    first
}

// The answer of the function with a number.
pub fn call(number: u8, operand: [u8; DECORATED]) -> Result<Answer, Refusal> {
    match number {
        128 => Ok(Answer::from(bare::try_from_be_bytes(first_sixteen(&operand))?)),
        129 => Ok(Answer::from(bare::try_from_le_bytes(first_sixteen(&operand))?)),
        130 => Ok(Answer::from(decorated::try_from_be_bytes(operand)?)),
        131 => Ok(Answer::from(decorated::try_from_le_bytes(operand)?)),
        132 => Ok(Answer::from(Interval::EMPTY)),
        133 => Ok(Answer::from(Interval::ENTIRE)),
        134 => Ok(Answer::from(DecInterval::EMPTY)),
        135 => Ok(Answer::from(DecInterval::NAI)),
        _ => Err(Refusal::UnknownOperation),
    }
}

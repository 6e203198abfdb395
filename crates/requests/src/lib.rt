// Requests in either form, bare or decorated: an operation number and two operands, answered by the bytes of an interval, of a state or of a
// truth value. They stand on intervals in lent bytes (`lent_intervals`) and on the operations over the form (`operands`).
#![tactic(auto)]

ghost use Rattle.patterns.specs.Format.{binary64};
ghost use Rattle.meaning.specs.Requests.{BareRequest, DecoratedRequest, Request};
ghost use Rattle.refusals.specs.RefusalMeaning.{said};

mod operation;

use dec_interval::DecInterval;
use interval::Interval;
use lent_calls::{FIRST_AT, NUMBER_AT};
use lent_intervals::InBytes;
use operands::Operand;
use operation::answer;
use operation_names::Asked;
use refusals::Refusal;

// Reads a request and writes its answer, or refuses it and writes nothing.
fn request<T: Operand + InBytes>(input: &[u8], output: &mut [u8]) -> Result<(), Refusal>
    ensures { Request binary64 T.form input.now output.old (said result) output.new }
{
    if input.len() != FIRST_AT + 2 * T::SIZE {
        return Err(Refusal::WrongLength);
    }
    if output.len() != T::SIZE {
        return Err(Refusal::WrongRoom);
    }
    let asked = Asked::try_from(input[NUMBER_AT])?;
    answer::<T>(asked, input, output)
}

// Bare requests: 33 bytes, answered by 16.
pub fn request_bare(input: &[u8], output: &mut [u8]) -> Result<(), Refusal>
    ensures { BareRequest binary64 input.now output.old (said result) output.new }
{
    request::<Interval>(input, output)
}

// Decorated requests: 35 bytes, answered by 17.
pub fn request_decorated(input: &[u8], output: &mut [u8]) -> Result<(), Refusal>
    ensures { DecoratedRequest binary64 input.now output.old (said result) output.new }
{
    request::<DecInterval>(input, output)
}

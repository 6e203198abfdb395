// Operations on the operands of a request, the first of which is judged before the second.
ghost use Rattle.std.specs.Prelude.{[], ◌≡◌, ◌+◌, length};
ghost use Rattle.patterns.specs.Format.{binary64};
ghost use Rattle.meaning.specs.Calls.{Called};
ghost use Rattle.meaning.specs.Forms.{size_of};
ghost use Rattle.meaning.specs.Requests.{OutcomeIn};
ghost use Rattle.refusals.specs.RefusalMeaning.{said};
ghost use Rattle.operation_names.specs.Numbers.{asked_of};
ghost use Rattle.request_laws.specs.Reads.{OnOperands};

use ends_in_bytes::ByteOrder;
use lent_calls::{FIRST_AT, write_state};
use lent_intervals::InBytes;
use operands::Operand;
use operation_names::Asked;
use overlap::dec_state_number;
use refusals::Refusal;
use request_operands::read_both;

// Does what is asked for. Operations of one operand do not read the second. What is done with both stands in each arm: as a closure it would
// be longer than the two lines that it spares.
pub fn answer<T: Operand + InBytes>(
    asked: Asked,
    input: &[u8],
    output: &mut [u8],
) -> Result<(), Refusal>
    requires { (length input.now ≡ 1 + size_of T.form + size_of T.form) × (length output.old ≡ size_of T.form) }
    ensures { Called [] (OnOperands (size_of T.form) (OutcomeIn binary64 T.form) (asked_of asked)) input.now output.old (said result) output.new }
{
    match asked {
        Asked::One(f) => {
            let x = T::read(input, FIRST_AT, ByteOrder::Big)?;
            T::image(f, x).write(ByteOrder::Big, output);
        }
        Asked::Two(o) => {
            let (x, y) = read_both::<T>(input)?;
            T::combine(o, x, y).write(ByteOrder::Big, output);
        }
        Asked::Overlap => {
            let (x, y) = read_both::<T>(input)?;
            write_state(dec_state_number(T::state(x, y)), output);
        }
        Asked::Comparison(c) => {
            let (x, y) = read_both::<T>(input)?;
            write_state(u8::from(T::compares(c, x, y)), output);
        }
    }
    Ok(())
}

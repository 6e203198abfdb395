// Bare requests that report which ends are exact: 33 bytes, answered by 18. They stand on the arithmetic operations that report it
// (`exact_operations`), and on operands that are read as the bare request reads them (`request_operands`).
#![tactic(auto)]

ghost use Rattle.std.specs.Prelude.{[], ◌≡◌, length};
ghost use Rattle.patterns.specs.Format.{binary64};
ghost use Rattle.meaning.specs.Calls.{Called};
ghost use Rattle.meaning.specs.Points.{neg};
ghost use Rattle.meaning.specs.Requests.{unary, binary, bare_size};
ghost use Rattle.meaning.specs.ExactRequests.{ExactOutcome, ExactRequest, write_exact};
ghost use Rattle.refusals.specs.RefusalMeaning.{said};
ghost use Rattle.operation_names.specs.Names.{arithmetic_of};
ghost use Rattle.operation_names.specs.Numbers.{asked_exact_of};
ghost use Rattle.exact_operations.specs.ExactIntervals.{exact_pair_of};
ghost use Rattle.request_laws.specs.Reads.{OnOperands};

use ends_in_bytes::{ByteOrder, write_ends};
use exact_operations::{ExactInterval, combine_exact, negate_exact};
use interval::Interval;
use lent_calls::{BARE_REQUEST, FIRST_AT, NUMBER_AT};
use lent_intervals::{BARE, InBytes};
use operation_names::{Arithmetic, AskedExact};
use refusals::Refusal;
use request_operands::read_both;

// Where the flag of the lower end stands in an answer, and where that of the upper end.
const LOWER_EXACT_AT: usize = BARE;

const UPPER_EXACT_AT: usize = BARE + 1;

// The bytes of an answer.
const EXACT: usize = BARE + 2;

// The interval and its flags over the whole output.
fn write_exact(z: ExactInterval, output: &mut [u8])
    requires { length output.old ≡ 18 }
    ensures { output.new ≡ write_exact (exact_pair_of z) }
{
    let ends = z.x.ends;
    write_ends(output, ends, ByteOrder::Big);
    output[LOWER_EXACT_AT] = u8::from(z.exact.lower);
    output[UPPER_EXACT_AT] = u8::from(z.exact.upper);
}

fn negate(input: &[u8], output: &mut [u8]) -> Result<(), Refusal>
    requires { (length input.now ≡ 33) × (length output.old ≡ 18) }
    ensures { Called [] (OnOperands bare_size (ExactOutcome binary64) (unary neg)) input.now output.old (said result) output.new }
{
    let x = Interval::read(input, FIRST_AT, ByteOrder::Big)?;
    write_exact(negate_exact(x), output);
    Ok(())
}

fn calculate(o: Arithmetic, input: &[u8], output: &mut [u8]) -> Result<(), Refusal>
    requires { (length input.now ≡ 33) × (length output.old ≡ 18) }
    ensures { Called [] (OnOperands bare_size (ExactOutcome binary64) (binary (arithmetic_of o))) input.now output.old (said result) output.new }
{
    let (x, y) = read_both::<Interval>(input)?;
    write_exact(combine_exact(o, x, y), output);
    Ok(())
}

// Does what is asked for. Negation does not read the second operand.
fn answer_exact(asked: AskedExact, input: &[u8], output: &mut [u8]) -> Result<(), Refusal>
    requires { (length input.now ≡ 33) × (length output.old ≡ 18) }
    ensures { Called [] (OnOperands bare_size (ExactOutcome binary64) (asked_exact_of asked)) input.now output.old (said result) output.new }
{
    match asked {
        AskedExact::Neg => negate(input, output),
        AskedExact::Two(o) => calculate(o, input, output),
    }
}

// Reads a bare request for an arithmetic operation, and writes its answer and which ends are exact, or refuses it and writes
// nothing.
pub fn request_bare_exact(input: &[u8], output: &mut [u8]) -> Result<(), Refusal>
    ensures { ExactRequest binary64 input.now output.old (said result) output.new }
{
    if input.len() != BARE_REQUEST {
        return Err(Refusal::WrongLength);
    }
    if output.len() != EXACT {
        return Err(Refusal::WrongRoom);
    }
    let asked = AskedExact::try_from(input[NUMBER_AT])?;
    answer_exact(asked, input, output)
}

// The operands of a request, of which the first is judged before the second. They stand on intervals in lent bytes (`lent_intervals`), and
// every request stands on them.
#![tactic(auto)]

ghost use Rattle.std.specs.Prelude.{◌≡◌, ◌+◌, length};
ghost use Rattle.patterns.specs.Format.{binary64};
ghost use Rattle.meaning.specs.Bytes.{big_endian};
ghost use Rattle.meaning.specs.Forms.{JudgedIn, ReadsAs, size_of};
ghost use Rattle.meaning.specs.Requests.{first_operand, second_operand};
ghost use Rattle.meaning.specs.Statement.{Answered₂};
ghost use Rattle.refusals.specs.RefusalMeaning.{outcome_of};
ghost use Rattle.request_laws.specs.Reads.{BothRead};
ghost use Rattle.request_operands.specs.OperandMeaning.{both_of};

use ends_in_bytes::ByteOrder;
use lent_calls::FIRST_AT;
use lent_intervals::InBytes;
use refusals::Refusal;

// Two operands, or the refusal of the first that is wrong.
pub fn read_both<T: InBytes>(input: &[u8]) -> Result<(T, T), Refusal>
    requires { length input.now ≡ 1 + size_of T.form + size_of T.form }
    ensures { Answered₂ (JudgedIn binary64 T.form big_endian) (BothRead (ReadsAs T.form big_endian)) (first_operand (size_of T.form) input.now) (second_operand (size_of T.form) input.now) (outcome_of (both_of T.value) result) }
{
    let x = T::read(input, FIRST_AT, ByteOrder::Big)?;
    let y = T::read(input, FIRST_AT + T::SIZE, ByteOrder::Big).map_err(Refusal::second)?;
    Ok((x, y))
}

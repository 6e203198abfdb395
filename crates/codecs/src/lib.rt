// Codecs on lent bytes: one interval from one byte order into the other. They stand on what reads and writes intervals in lent
// bytes (`lent_intervals`).
#![tactic(auto)]

ghost use Rattle.patterns.specs.Format.{binary64};
ghost use Rattle.meaning.specs.Bytes.{big_endian, little_endian};
ghost use Rattle.meaning.specs.Forms.{bare_form, decorated_form};
ghost use Rattle.meaning.specs.Requests.{Codec};
ghost use Rattle.refusals.specs.RefusalMeaning.{said};
ghost use Rattle.ends_in_bytes.specs.ByteOrderMeaning.{order_of};

use dec_interval::DecInterval;
use ends_in_bytes::ByteOrder;
use interval::Interval;
use lent_intervals::InBytes;
use refusals::Refusal;

fn recode<T: InBytes>(
    input: &[u8],
    output: &mut [u8],
    from: ByteOrder,
    to: ByteOrder,
) -> Result<(), Refusal>
    ensures { Codec binary64 T.form (order_of from) (order_of to) input.now output.old (said result) output.new }
{
    if input.len() != T::SIZE {
        return Err(Refusal::WrongLength);
    }
    if output.len() != T::SIZE {
        return Err(Refusal::WrongRoom);
    }
    let x = T::read(input, 0, from)?;
    x.write(to, output);
    Ok(())
}

// The archive exports a codec for each form and order, and each of them is documented.

// Reads a bare interval in big endian and writes it in little endian.
pub fn bare_be_to_le(input: &[u8], output: &mut [u8]) -> Result<(), Refusal>
    ensures { Codec binary64 bare_form big_endian little_endian input.now output.old (said result) output.new }
{
    recode::<Interval>(input, output, ByteOrder::Big, ByteOrder::Little)
}

// Reads a bare interval in little endian and writes it in big endian.
pub fn bare_le_to_be(input: &[u8], output: &mut [u8]) -> Result<(), Refusal>
    ensures { Codec binary64 bare_form little_endian big_endian input.now output.old (said result) output.new }
{
    recode::<Interval>(input, output, ByteOrder::Little, ByteOrder::Big)
}

// Reads a decorated interval in big endian and writes it in little endian.
pub fn decorated_be_to_le(input: &[u8], output: &mut [u8]) -> Result<(), Refusal>
    ensures { Codec binary64 decorated_form big_endian little_endian input.now output.old (said result) output.new }
{
    recode::<DecInterval>(input, output, ByteOrder::Big, ByteOrder::Little)
}

// Reads a decorated interval in little endian and writes it in big endian.
pub fn decorated_le_to_be(input: &[u8], output: &mut [u8]) -> Result<(), Refusal>
    ensures { Codec binary64 decorated_form little_endian big_endian input.now output.old (said result) output.new }
{
    recode::<DecInterval>(input, output, ByteOrder::Little, ByteOrder::Big)
}

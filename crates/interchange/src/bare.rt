// Bare intervals as sixteen bytes: lower end, upper end, eight bytes each. inari has these names for each form, and both are documented.
ghost use Rattle.patterns.specs.Format.{binary64};
ghost use Rattle.meaning.specs.Bytes.{big_endian, little_endian};
ghost use Rattle.meaning.specs.Forms.{bare_form, Reading, Writing};
ghost use Rattle.refusals.specs.RefusalMeaning.{outcome, outcome_of};
ghost use Rattle.interval.specs.IntervalMeaning.{pair_of};

use crate::bytes::{read, write};
use ends_in_bytes::ByteOrder;
use interval::Interval;
use lent_intervals::BARE;
use refusals::Refusal;

// The interval that big-endian bytes stand for.
pub fn try_from_be_bytes(bytes: [u8; BARE]) -> Result<Interval, Refusal>
    ensures { Reading binary64 bare_form big_endian bytes (outcome_of pair_of result) }
{
    read(bytes, ByteOrder::Big)
}

// The interval that little-endian bytes stand for.
pub fn try_from_le_bytes(bytes: [u8; BARE]) -> Result<Interval, Refusal>
    ensures { Reading binary64 bare_form little_endian bytes (outcome_of pair_of result) }
{
    read(bytes, ByteOrder::Little)
}

// The big-endian bytes of an interval.
pub fn to_be_bytes(x: Interval) -> Result<[u8; BARE], Refusal>
    ensures { Writing binary64 bare_form big_endian (pair_of x) (outcome result) }
{
    write(x, ByteOrder::Big)
}

// The little-endian bytes of an interval.
pub fn to_le_bytes(x: Interval) -> Result<[u8; BARE], Refusal>
    ensures { Writing binary64 bare_form little_endian (pair_of x) (outcome result) }
{
    write(x, ByteOrder::Little)
}

// Decorated intervals as seventeen bytes: those of the bare interval, and one for the decoration.
ghost use Rattle.patterns.specs.Format.{binary64};
ghost use Rattle.meaning.specs.Bytes.{big_endian, little_endian};
ghost use Rattle.meaning.specs.Forms.{decorated_form, Reading, Writing};
ghost use Rattle.refusals.specs.RefusalMeaning.{outcome, outcome_of};
ghost use Rattle.dec_interval.specs.DecIntervalMeaning.{dec_pair_of};

use crate::bytes::{read, write};
use dec_interval::DecInterval;
use ends_in_bytes::ByteOrder;
use lent_intervals::DECORATED;
use refusals::Refusal;

// The decorated interval that big-endian bytes stand for.
pub fn try_from_be_bytes(bytes: [u8; DECORATED]) -> Result<DecInterval, Refusal>
    ensures { Reading binary64 decorated_form big_endian bytes (outcome_of dec_pair_of result) }
{
    read(bytes, ByteOrder::Big)
}

// The decorated interval that little-endian bytes stand for.
pub fn try_from_le_bytes(bytes: [u8; DECORATED]) -> Result<DecInterval, Refusal>
    ensures { Reading binary64 decorated_form little_endian bytes (outcome_of dec_pair_of result) }
{
    read(bytes, ByteOrder::Little)
}

// The big-endian bytes of a decorated interval.
pub fn to_be_bytes(x: DecInterval) -> Result<[u8; DECORATED], Refusal>
    ensures { Writing binary64 decorated_form big_endian (dec_pair_of x) (outcome result) }
{
    write(x, ByteOrder::Big)
}

// The little-endian bytes of a decorated interval.
pub fn to_le_bytes(x: DecInterval) -> Result<[u8; DECORATED], Refusal>
    ensures { Writing binary64 decorated_form little_endian (dec_pair_of x) (outcome result) }
{
    write(x, ByteOrder::Little)
}

// Intervals of either form as arrays of bytes, in either order.
ghost use Rattle.std.specs.Prelude.{◌≡◌};
ghost use Rattle.patterns.specs.Format.{binary64};
ghost use Rattle.meaning.specs.Forms.{JudgedValue, Reading, TidiedAs, Writing, size_of};
ghost use Rattle.meaning.specs.Statement.{sound};
ghost use Rattle.refusals.specs.RefusalMeaning.{outcome, outcome_of};
ghost use Rattle.ends_in_bytes.specs.ByteOrderMeaning.{order_of};

use dec_interval::{DecInterval, canonical_dec};
use end_pairs::canonical;
use ends_in_bytes::ByteOrder;
use interval::Interval;
use lent_intervals::InBytes;
use refusals::Refusal;

// An interval that is written as the bytes have it.
pub trait Tidied: InBytes {
    // The same interval with its zeros, and NaI with its ends, as the bytes have them.
    fn tidied(self) -> Self
        requires { JudgedValue binary64 Self.form (Self.value self) sound }
        ensures { TidiedAs binary64 Self.form (Self.value self) (Self.value result) };
}

impl Tidied for Interval {
    fn tidied(self) -> Interval {
        Interval::from_ends(canonical(self.ends))
    }
}

impl Tidied for DecInterval {
    fn tidied(self) -> DecInterval {
        canonical_dec(self.x.ends, self.d)
    }
}

// The interval that bytes stand for.
pub fn read<T: InBytes, const N: usize>(bytes: [u8; N], order: ByteOrder) -> Result<T, Refusal>
    requires { N ≡ size_of T.form }
    ensures { Reading binary64 T.form (order_of order) bytes.entry (outcome_of T.value result) }
{
    Ok(T::read(&bytes, 0, order)?)
}

// The bytes of an interval.
pub fn write<T: Tidied, const N: usize>(x: T, order: ByteOrder) -> Result<[u8; N], Refusal>
    requires { N ≡ size_of T.form }
    ensures { Writing binary64 T.form (order_of order) (T.value x) (outcome result) }
{
    x.judge()?;
    let mut bytes = [0u8; N];
    x.tidied().write(order, &mut bytes);
    Ok(bytes)
}

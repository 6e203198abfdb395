// Intervals in lent bytes of either order: what calls read, and what they write.
ghost use Rattle.std.specs.Prelude.{◌≡◌, ◌+◌, ◌≤◌, ℕ, refl, length, take, drop};
ghost use Rattle.patterns.specs.Format.{binary64};
ghost use Rattle.meaning.specs.Forms.{Reading, size_of, write};
ghost use Rattle.refusals.specs.RefusalMeaning.{first_outcome};
ghost use Rattle.ends_in_bytes.specs.ByteOrderMeaning.{order_of};

use crate::canonical::is_canonical;
use crate::taken_apart::answer_read;
use dec_interval::DecInterval;
use decorations::Decoration;
use ends_in_bytes::{ByteOrder, read_ends, write_ends};
use interval::{Form, Interval};
use refusals::Fault;

// The bytes of a bare interval.
pub const BARE: usize = 16;

// The bytes of a decorated interval.
pub const DECORATED: usize = 17;

// Where the decoration's byte stands among them.
const DECORATION_AT: usize = BARE;

// An interval in one of the forms, in lent bytes.
pub trait InBytes: Form {
    // How many bytes it has.
    const SIZE: usize;

    ghost SIZE: { ℕ };

    // What the bytes from a position on stand for.
    fn read(s: &[u8], start: usize, order: ByteOrder) -> Result<Self, Fault>
        requires { start + size_of Self.form ≤ length s.now }
        ensures { Reading binary64 Self.form (order_of order) (take (size_of Self.form) (drop start s.now)) (first_outcome Self.value result) };

    // The interval over the whole output.
    fn write(self, order: ByteOrder, output: &mut [u8])
        requires { length output.old ≡ size_of Self.form }
        ensures { output.new ≡ write Self.form (order_of order) (Self.value self) };

    ghost size: { SIZE ≡ size_of Self.form };
}

impl InBytes for Interval {
    const SIZE: usize = BARE;

    ghost SIZE = { 16 };

    fn read(s: &[u8], start: usize, order: ByteOrder) -> Result<Interval, Fault> {
        let ends = read_ends(s, start, order);
        if !is_canonical(ends) {
            return Err(Fault::BadEnds);
        }
        Ok(Interval::from_ends(ends))
    }

    fn write(self, order: ByteOrder, output: &mut [u8]) {
        write_ends(output, self.ends, order);
    }

    ghost size = { refl };
}

impl InBytes for DecInterval {
    const SIZE: usize = DECORATED;

    ghost SIZE = { 17 };

    fn read(s: &[u8], start: usize, order: ByteOrder) -> Result<DecInterval, Fault> {
        let d = Decoration::try_from(s[start + DECORATION_AT])?;
        answer_read(read_ends(s, start, order), d)
    }

    fn write(self, order: ByteOrder, output: &mut [u8]) {
        write_ends(output, self.x.ends, order);
        output[DECORATION_AT] = u8::from(self.d);
    }

    ghost size = { refl };
}

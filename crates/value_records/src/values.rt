// Operands by value, made of a record's bytes and not judged.
ghost use Rattle.std.specs.Prelude.{◌≡◌, ◌+◌, ◌≤◌, length, take, drop};

use dec_interval::DecInterval;
use decorations::Decoration;
use end_pairs::EndPair;
use ends_in_bytes::{ByteOrder, read_ends};
use interval::Interval;
use lent_intervals::{BARE, DECORATED};
use refusals::Fault;

// What is passed: two patterns, and the decoration that the seventeenth byte says, if it says one.
#[derive(Clone, Copy)]
pub struct Operand {
    pub ends: EndPair,
    pub decoration: Result<Decoration, Fault>,
}

impl Operand {
    pub fn bare(self) -> Interval {
        Interval { ends: self.ends }
    }

    // The decorated interval, unless the byte is no decoration's.
    pub fn decorated(self) -> Result<DecInterval, Fault> {
        let d = self.decoration?;
        Ok(DecInterval { x: self.bare(), d })
    }
}

// The operand that starts at a position of a record.
pub fn operand_at(input: &[u8], start: usize) -> [u8; DECORATED]
    requires { start + 17 ≤ length input.now }
    ensures { result ≡ take 17 (drop start input.now) }
{
    let mut operand = [0u8; DECORATED];
    let end = start + DECORATED;
    operand.copy_from_slice(&input[start..end]);
    operand
}

pub fn operand_of(bytes: [u8; DECORATED]) -> Operand {
    Operand {
        ends: read_ends(&bytes, 0, ByteOrder::Big),
        decoration: Decoration::try_from(bytes[BARE]),
    }
}

// Document 01's number of each state, and of NaI.
ghost use Rattle.std.specs.Prelude.{◌≡◌};
ghost use Rattle.overlap.specs.OverlapMeaning.{IsNumberOf, dec_number_of};

use crate::state::Overlap;

// The number of NaI, after those of the states.
const NAI_NUMBER: u8 = 16;

// The states are numbered in the order declared.
impl From<Overlap> for u8 {
    ghost from_gives = { IsNumberOf };

    fn from(s: Overlap) -> u8 {
        s as u8
    }
}

// The number of the state of two decorated intervals, of which NaI has none.
pub fn dec_state_number(s: Option<Overlap>) -> u8
    ensures { result ≡ dec_number_of s }
{
    s.map_or(NAI_NUMBER, u8::from)
}

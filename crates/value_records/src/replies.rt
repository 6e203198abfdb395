// What is written for each kind of answer: number, place, and seventeen bytes, which are zero where nothing is said of them.
//
//  Answer                                  | Bytes
// -----------------------------------------+-----------------------------------------------------------------
//  bare interval                           | its two ends, as they are
//  bare interval with exact ends           | its two ends, as they are, and 1 for an exact lower and 2 for an exact upper end, added up
//  decorated interval                      | its two ends, as they are, and its decoration's byte
//  end                                     | its eight bytes
//  truth value, class, state or decoration | one byte: 0 or 1, the class or the state by its place in the order
//                                          | declared, 16 for overlap of NaI, or the decoration's byte
//  the interval part that NaI lacks        | zeros, and 255 last
use classify::IntervalClass;
use dec_interval::DecInterval;
use decorations::Decoration;
use end_pairs::EndPair;
use ends_in_bytes::{ByteOrder, read_ends, write_ends};
use exact_operations::ExactInterval;
use interval::Interval;
use lent_calls::{ANSWER_AT, NUMBER_AT, PLACE_AT, REPLY};
use lent_intervals::{BARE, DECORATED};
use overlap::{Overlap, dec_state_number};
use refusals::Refusal;

// Where the last byte of the answer stands in a reply.
const LAST_AT: usize = ANSWER_AT + BARE;

// Stands last, and is no decoration's byte, where NaI has no interval part.
const MISSING: u8 = 255;

// What the first of eight bytes weighs.
const FIRST_BYTE: u64 = 0x0100_0000_0000_0000;

// An answer before it is written: sixteen bytes as two patterns, and the last byte. The ends are written as they are, so that a zero of the
// wrong sign shows.
#[derive(Clone, Copy)]
pub struct Answer {
    ends: EndPair,
    last: u8,
}

// Sixteen zero bytes.
const NO_ENDS: EndPair = EndPair { a: 0, b: 0 };

impl Answer {
    // Eight bytes first, as an end.
    pub fn end(end: u64) -> Answer {
        Answer {
            ends: EndPair { a: end, b: 0 },
            last: 0,
        }
    }

    fn one_byte(byte: u8) -> Answer {
        Answer::end(u64::from(byte) * FIRST_BYTE)
    }

    pub fn bare_bytes(bytes: [u8; BARE]) -> Answer {
        Answer {
            ends: read_ends(&bytes, 0, ByteOrder::Big),
            last: 0,
        }
    }

    pub fn decorated_bytes(bytes: [u8; DECORATED]) -> Answer {
        Answer {
            ends: read_ends(&bytes, 0, ByteOrder::Big),
            last: bytes[BARE],
        }
    }
}

impl From<Interval> for Answer {
    fn from(x: Interval) -> Answer {
        Answer {
            ends: x.ends,
            last: 0,
        }
    }
}

impl From<DecInterval> for Answer {
    fn from(x: DecInterval) -> Answer {
        Answer {
            ends: x.x.ends,
            last: u8::from(x.d),
        }
    }
}

// The interval part of a decorated interval.
impl From<Option<Interval>> for Answer {
    fn from(part: Option<Interval>) -> Answer {
        match part {
            Some(x) => Answer::from(x),
            None => Answer {
                ends: NO_ENDS,
                last: MISSING,
            },
        }
    }
}

// The interval, and behind it 1 for an exact lower and 2 for an exact upper end, added up.
impl From<ExactInterval> for Answer {
    fn from(z: ExactInterval) -> Answer {
        Answer {
            ends: z.x.ends,
            last: u8::from(z.exact.lower) | (u8::from(z.exact.upper) << 1),
        }
    }
}

impl From<bool> for Answer {
    fn from(yes: bool) -> Answer {
        Answer::one_byte(u8::from(yes))
    }
}

impl From<Decoration> for Answer {
    fn from(d: Decoration) -> Answer {
        Answer::one_byte(u8::from(d))
    }
}

impl From<IntervalClass> for Answer {
    fn from(class: IntervalClass) -> Answer {
        Answer::one_byte(class as u8)
    }
}

// A state, or none of NaI.
impl From<Option<Overlap>> for Answer {
    fn from(state: Option<Overlap>) -> Answer {
        Answer::one_byte(dec_state_number(state))
    }
}

// The reply to a call that was answered or refused.
pub fn written(said: Result<Answer, Refusal>) -> [u8; REPLY] {
    let mut reply = [0u8; REPLY];
    match said {
        Ok(answer) => {
            write_ends(&mut reply[ANSWER_AT..], answer.ends, ByteOrder::Big);
            reply[LAST_AT] = answer.last;
        }
        Err(refusal) => {
            reply[NUMBER_AT] = refusal.number();
            reply[PLACE_AT] = refusal.place();
        }
    }
    reply
}

// Two ends, and the bit patterns that have a name.

pub use patterns::SIGN;

// The pattern of +0.0.
pub const PLUS_ZERO: u64 = 0;
// The pattern of +inf.
pub const INFINITY: u64 = 0x7ff0_0000_0000_0000;
// The pattern of -inf.
pub const MINUS_INFINITY: u64 = 0xfff0_0000_0000_0000;
// The NaN that each end of NaI is.
pub const QUIET_NAN: u64 = 0x7ff8_0000_0000_0000;

// The bit patterns of a lower end `a` and an upper end `b`, which need not be those of an interval.
#[derive(Clone, Copy, PartialEq, Eq)]
pub struct EndPair {
    pub a: u64,
    pub b: u64,
}

impl EndPair {
    pub const EMPTY: EndPair = EndPair {
        a: INFINITY,
        b: MINUS_INFINITY,
    };

    pub const ENTIRE: EndPair = EndPair {
        a: MINUS_INFINITY,
        b: INFINITY,
    };

    // The ends of NaI.
    pub const NANS: EndPair = EndPair {
        a: QUIET_NAN,
        b: QUIET_NAN,
    };
}

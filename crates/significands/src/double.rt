// The fields of a double.

use packing::format::Format;
pub use patterns::{FRACTION, SIGN};

// The exponent field of infinity.
pub const CODES: u32 = 2047;

// The format of doubles.
pub const DOUBLE: Format = Format {
    frac: FRACTION,
    codes: CODES,
};

// Formats, what a bit pattern is worth, and upward rounding: definitions and laws, and for code the layout of a double. It stands on
// the truth values that answer a question (`truth`).
#![tactic(auto)]

// The sign bit of a double, which is also the pattern of -0.0.
pub const SIGN: u64 = 0x8000_0000_0000_0000;

// Bits of a double's fraction.
pub const FRACTION: u32 = 52;

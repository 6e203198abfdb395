// Binary formats whose patterns fit the machine's words.
ghost use Rattle.std.specs.Prelude.{◌^◌, ◌<◌, ◌≤◌};

// The width of a format's fraction, and its exponent field of infinity.
#[derive(Clone, Copy)]
pub struct Format {
    pub frac: u32,
    pub codes: u32,
    ghost narrow: { frac ≤ 52 },
    ghost coded: { codes < 2 ^ 11 },
}

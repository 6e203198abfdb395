// The true ends of sums, products and quotients of intervals: class tables, proved against their meaning. Definitions and
// code choose by the same tables, so that kinds and corners are declared once, here, for both.
#![tactic(auto)]

// "N* | a < 0 ∧ b ≤ 0" and "P* | 0 ≤ a ∧ 0 < b" of the comment over the classes: N0 and N1 are N, P0 and P1 are P.
#[derive(Clone, Copy)]
pub enum Kind {
    M,
    N,
    P,
    Z,
}

// What the upper end for [a, b] and [c, d] is worked out from: an end of the first and one of the second, the greater of
// `LowerLower` and `UpperUpper`, or nothing, where it is 0 or there is no bound.
#[derive(Clone, Copy)]
pub enum Corner {
    LowerLower,
    LowerUpper,
    UpperLower,
    UpperUpper,
    Greater,
    Zero,
    Unbounded,
}

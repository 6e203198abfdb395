// Ends with their zeros as the bytes have them.
ghost use Rattle.std.specs.Prelude.{◌≡◌, eqb};
ghost use Rattle.patterns.specs.Format.{binary64};
ghost use Rattle.patterns.specs.Value.{choose, opposite};
ghost use Rattle.meaning.specs.Pairs.{Bare};
ghost use Rattle.meaning.specs.Bytes.{Tidied};
ghost use Rattle.end_pairs.specs.EndPairMeaning.{pair_of};

use crate::mirror::opposite;
use crate::types::{EndPair, PLUS_ZERO, SIGN};

// The end with `zero` in place of the other zero.
fn with_zero(b: u64, zero: u64) -> u64
    ensures { result ≡ choose (eqb b (opposite binary64 zero)) zero b }
{
    if b == opposite(zero) { zero } else { b }
}

// The ends of the same interval, a zero lower end as -0.0 and a zero upper end as +0.0.
pub fn canonical(x: EndPair) -> EndPair
    requires { Bare binary64 (pair_of x) }
    ensures { Tidied binary64 (pair_of x) (pair_of result) }
{
    EndPair {
        a: with_zero(x.a, SIGN),
        b: with_zero(x.b, PLUS_ZERO),
    }
}

// Signs changed: the lower end of an answer is the upper end of its mirror image, negated at the last moment.
ghost use Rattle.std.specs.Prelude.{◌≡◌};
ghost use Rattle.patterns.specs.Format.{binary64};
ghost use Rattle.patterns.specs.Value.{opposite};
ghost use Rattle.end_pairs.specs.EndPairMeaning.{pair_of};
ghost use Rattle.end_pairs.specs.Mirror.{outward_pair, mirror_pair};

use crate::types::{EndPair, SIGN};

// The pattern with the other sign.
pub fn opposite(b: u64) -> u64
    ensures { result ≡ opposite binary64 b }
{
    b ^ SIGN
}

// The pair with an upper end, whose mirror image has the upper end `mirrored`.
pub fn outward(mirrored: u64, upper: u64) -> EndPair
    ensures { pair_of result ≡ outward_pair binary64 mirrored upper }
{
    EndPair {
        a: opposite(mirrored),
        b: upper,
    }
}

// The ends of the negatives. Zeros and EMPTY change their signs too.
pub fn mirrored(x: EndPair) -> EndPair
    ensures { pair_of result ≡ mirror_pair binary64 (pair_of x) }
{
    outward(x.b, opposite(x.a))
}

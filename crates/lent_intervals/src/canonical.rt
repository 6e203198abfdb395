// Which ends the bytes may have.
ghost use Rattle.patterns.specs.Format.{binary64};
ghost use Rattle.meaning.specs.Pairs.{Canonical};
ghost use Rattle.meaning.specs.Bytes.{BytesEnds};
ghost use Rattle.truth.specs.Answers.{Answers};
ghost use Rattle.end_pairs.specs.EndPairMeaning.{pair_of};

use end_pairs::{EndPair, PLUS_ZERO, SIGN, are_nans, is_bare};

// Whether ends are an interval's with its zeros as the bytes have them.
pub fn is_canonical(x: EndPair) -> bool
    ensures { Answers (Canonical binary64 (pair_of x)) result }
{
    if x.a == PLUS_ZERO {
        return false;
    }
    if x.b == SIGN {
        return false;
    }
    is_bare(x)
}

// Whether ends are those of a decorated interval as the bytes have it.
pub fn has_bytes_ends(x: EndPair) -> bool
    ensures { Answers (BytesEnds binary64 (pair_of x)) result }
{
    is_canonical(x) || are_nans(x)
}

// The upper end of a quotient, at the corner that the table chose.
ghost use Rattle.patterns.specs.Format.{binary64};
ghost use Rattle.meaning.specs.Pairs.{end_of};
ghost use Rattle.meaning.specs.Supremum.{UpperEnd};
ghost use Rattle.theorem3.specs.Ends.{quotient_end};
ghost use Rattle.theorem3.specs.Corners.{end_at, Divides};

use crate::ends::quotient_end;
use end_pairs::{EndPair, INFINITY, PLUS_ZERO};
use theorem3::Corner;

// A corner of [a, b] / [c, d], worked out. No quotient is the greater of two; an arm for it has to be there all the same.
pub fn quotient_at(corner: Corner, x: EndPair, y: EndPair) -> u64
    requires { Divides corner (end_of binary64 y.a) (end_of binary64 y.b) }
    ensures { UpperEnd binary64 (end_at quotient_end corner (end_of binary64 x.a) (end_of binary64 x.b) (end_of binary64 y.a) (end_of binary64 y.b)) result }
{
    match corner {
        Corner::LowerLower => quotient_end(x.a, y.a),
        Corner::LowerUpper => quotient_end(x.a, y.b),
        Corner::UpperLower => quotient_end(x.b, y.a),
        Corner::UpperUpper => quotient_end(x.b, y.b),
        Corner::Zero => PLUS_ZERO,
        Corner::Greater | Corner::Unbounded => INFINITY,
    }
}

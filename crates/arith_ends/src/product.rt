// The upper end of a product, at the corner that the table chose.
ghost use Rattle.patterns.specs.Format.{binary64};
ghost use Rattle.meaning.specs.Pairs.{end_of};
ghost use Rattle.meaning.specs.Supremum.{UpperEnd};
ghost use Rattle.theorem3.specs.Ends.{product_end};
ghost use Rattle.theorem3.specs.Corners.{end_at};

use crate::ends::product_end;
use end_pairs::{EndPair, INFINITY, PLUS_ZERO, greater};
use theorem3::Corner;

// A corner of [a, b] * [c, d], worked out.
// Products and quotients keep a match each: one for both would take the combination, the greater of two and the constants as parameters.
pub fn product_at(corner: Corner, x: EndPair, y: EndPair) -> u64
    ensures { UpperEnd binary64 (end_at product_end corner (end_of binary64 x.a) (end_of binary64 x.b) (end_of binary64 y.a) (end_of binary64 y.b)) result }
{
    match corner {
        Corner::LowerLower => product_end(x.a, y.a),
        Corner::LowerUpper => product_end(x.a, y.b),
        Corner::UpperLower => product_end(x.b, y.a),
        Corner::UpperUpper => product_end(x.b, y.b),
        Corner::Greater => greater(product_end(x.a, y.a), product_end(x.b, y.b)),
        Corner::Zero => PLUS_ZERO,
        Corner::Unbounded => INFINITY,
    }
}

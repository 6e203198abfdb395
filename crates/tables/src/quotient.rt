// The quotient's table.
ghost use Rattle.std.specs.Prelude.{◌≡◌};
ghost use Rattle.classify.specs.ClassMeaning.{class_of};
ghost use Rattle.theorem3.specs.Tables.{quotient_corner};

use classify::IntervalClass;
use theorem3::{Corner, Kind};

// The upper end of [a, b] / [c, d], where the divisor is not Z:
//
//    | M  | N0  | N1  | P0  | P1
// ---+----+-----+-----+-----+-----
//  M | +∞ | +∞  | a/d | +∞  | b/c
//  N | +∞ | +∞  | a/d | b/d | b/d
//  P | +∞ | a/c | a/c | +∞  | b/c
//  Z | 0  |  0  |  0  |  0  |  0
//
// EMPTY and a divisor Z are answered before; an arm for them has to be there all the same.
pub fn quotient_corner(x: Kind, y: IntervalClass) -> Corner
    ensures { result ≡ quotient_corner x (class_of y) }
{
    match x {
        Kind::M => match y {
            IntervalClass::N1 => Corner::LowerUpper,
            IntervalClass::P1 => Corner::UpperLower,
            IntervalClass::M
            | IntervalClass::N0
            | IntervalClass::P0
            | IntervalClass::Z
            | IntervalClass::E => Corner::Unbounded,
        },
        Kind::N => match y {
            IntervalClass::N1 => Corner::LowerUpper,
            IntervalClass::P0 | IntervalClass::P1 => Corner::UpperUpper,
            IntervalClass::M | IntervalClass::N0 | IntervalClass::Z | IntervalClass::E =>
                Corner::Unbounded,
        },
        Kind::P => match y {
            IntervalClass::N0 | IntervalClass::N1 => Corner::LowerLower,
            IntervalClass::P1 => Corner::UpperLower,
            IntervalClass::M | IntervalClass::P0 | IntervalClass::Z | IntervalClass::E =>
                Corner::Unbounded,
        },
        Kind::Z => Corner::Zero,
    }
}

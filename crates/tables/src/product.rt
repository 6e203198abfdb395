// The product's table.
ghost use Rattle.std.specs.Prelude.{◌≡◌};
ghost use Rattle.theorem3.specs.Tables.{product_corner};

use theorem3::{Corner, Kind};

// The upper end of [a, b] * [c, d]:
//
//    |      M        |  N  |  P  | Z
// ---+---------------+-----+-----+---
//  M | max{a*c, b*d} | a*c | b*d | 0
//  N |      a*c      | a*c | b*c | 0
//  P |      b*d      | a*d | b*d | 0
//  Z |       0       |  0  |  0  | 0
pub fn product_corner(x: Kind, y: Kind) -> Corner
    ensures { result ≡ product_corner x y }
{
    match x {
        Kind::M => match y {
            Kind::M => Corner::Greater,
            Kind::N => Corner::LowerLower,
            Kind::P => Corner::UpperUpper,
            Kind::Z => Corner::Zero,
        },
        Kind::N => match y {
            Kind::M | Kind::N => Corner::LowerLower,
            Kind::P => Corner::UpperLower,
            Kind::Z => Corner::Zero,
        },
        Kind::P => match y {
            Kind::M | Kind::P => Corner::UpperUpper,
            Kind::N => Corner::LowerUpper,
            Kind::Z => Corner::Zero,
        },
        Kind::Z => Corner::Zero,
    }
}

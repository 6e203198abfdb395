// The kinds of operands that the tables tell apart.
ghost use Rattle.std.specs.Prelude.{◌≡◌};
ghost use Rattle.classify.specs.ClassMeaning.{class_of};
ghost use Rattle.theorem3.specs.Tables.{kind_of, mirror_kind};

use classify::IntervalClass;
use theorem3::Kind;

// EMPTY is answered before the tables are asked; an arm for it has to be there all the same.
pub fn kind_of(x: IntervalClass) -> Kind
    ensures { result ≡ kind_of (class_of x) }
{
    match x {
        IntervalClass::M => Kind::M,
        IntervalClass::N0 | IntervalClass::N1 => Kind::N,
        IntervalClass::P0 | IntervalClass::P1 => Kind::P,
        IntervalClass::Z | IntervalClass::E => Kind::Z,
    }
}

// The kind of the mirror image.
pub fn mirrored_kind(x: Kind) -> Kind
    ensures { result ≡ mirror_kind x }
{
    match x {
        Kind::N => Kind::P,
        Kind::P => Kind::N,
        Kind::M | Kind::Z => x,
    }
}

// What a divisor's class says of a quotient.
ghost use Rattle.std.specs.Prelude.{◌≡◌};
ghost use Rattle.classify.specs.ClassMeaning.{class_of};
ghost use Rattle.theorem3.specs.Answer.{is_zero};
ghost use Rattle.decorations.specs.DecorationMeaning.{decoration_of};
ghost use Rattle.kinds.specs.Allowed.{allowed_by};

use classify::IntervalClass;
use decorations::Decoration;

// Whether there is nothing to divide by but 0.
pub fn is_zero(y: IntervalClass) -> bool
    ensures { result ≡ is_zero (class_of y) }
{
    matches!(y, IntervalClass::Z)
}

// What division allows at the most: Trv if the divisor holds 0.
pub fn allowed(y: IntervalClass) -> Decoration
    ensures { decoration_of result ≡ allowed_by (class_of y) }
{
    match y {
        IntervalClass::E | IntervalClass::N1 | IntervalClass::P1 => Decoration::Com,
        IntervalClass::M | IntervalClass::N0 | IntervalClass::P0 | IntervalClass::Z =>
            Decoration::Trv,
    }
}

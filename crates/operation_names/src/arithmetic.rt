// The arithmetic operations among all of two operands.
ghost use Rattle.std.specs.Prelude.{◌≡◌};
ghost use Rattle.operation_names.specs.Names.{binary_of, arithmetic_of};

use crate::names::{Arithmetic, Binary};

impl From<Arithmetic> for Binary {
    ghost from_gives = { λ o r. binary_of r ≡ arithmetic_of o };

    fn from(o: Arithmetic) -> Binary {
        match o {
            Arithmetic::Add => Binary::Add,
            Arithmetic::Sub => Binary::Sub,
            Arithmetic::Mul => Binary::Mul,
            Arithmetic::Div => Binary::Div,
        }
    }
}

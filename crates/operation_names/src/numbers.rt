// The operation numbers of document 01, and the operations that they stand for.
ghost use Rattle.operation_names.specs.Numbers.{AskedBy, AskedExactBy};

use crate::names::{Arithmetic, Binary, Comparison, Unary};
use refusals::Refusal;
use wholes::Function;

// What an operation number asks for.
#[derive(Clone, Copy)]
pub enum Asked {
    One(Unary),
    Two(Binary),
    Overlap,
    Comparison(Comparison),
}

// What it asks of a call that takes the arithmetic operations alone.
#[derive(Clone, Copy)]
pub enum AskedExact {
    Neg,
    Two(Arithmetic),
}

const NEG: u8 = 1;

const ADD: u8 = 2;

const SUB: u8 = 3;

const MUL: u8 = 4;

const DIV: u8 = 5;

const CONVEX_HULL: u8 = 6;

const INTERSECTION: u8 = 7;

const MAX: u8 = 8;

const MIN: u8 = 9;

const ABS: u8 = 10;

const CEIL: u8 = 11;

const FLOOR: u8 = 12;

const ROUND: u8 = 13;

const ROUND_TIES_EVEN: u8 = 14;

const SIGN: u8 = 15;

const TRUNC: u8 = 16;

const OVERLAP: u8 = 17;

const EQUAL: u8 = 18;

const SUBSET: u8 = 19;

const INTERIOR: u8 = 20;

const DISJOINT: u8 = 21;

const LESS: u8 = 22;

const STRICT_LESS: u8 = 23;

const PRECEDES: u8 = 24;

const STRICT_PRECEDES: u8 = 25;

// Numbers of no operation: the one before the first, and all from the one behind the last to the greatest.
const BEFORE: u8 = 0;

const BEHIND: u8 = 26;

const GREATEST: u8 = 255;

// The number behind the last of an arithmetic operation.
const BEHIND_ARITHMETIC: u8 = 6;

impl TryFrom<u8> for Asked {
    type Error = Refusal;

    ghost try_from_gives = { AskedBy };

    fn try_from(number: u8) -> Result<Asked, Refusal> {
        match number {
            NEG => Ok(Asked::One(Unary::Neg)),
            ADD => Ok(Asked::Two(Binary::Add)),
            SUB => Ok(Asked::Two(Binary::Sub)),
            MUL => Ok(Asked::Two(Binary::Mul)),
            DIV => Ok(Asked::Two(Binary::Div)),
            CONVEX_HULL => Ok(Asked::Two(Binary::ConvexHull)),
            INTERSECTION => Ok(Asked::Two(Binary::Intersection)),
            MAX => Ok(Asked::Two(Binary::Max)),
            MIN => Ok(Asked::Two(Binary::Min)),
            ABS => Ok(Asked::One(Unary::Abs)),
            CEIL => Ok(Asked::One(Unary::Whole(Function::Ceil))),
            FLOOR => Ok(Asked::One(Unary::Whole(Function::Floor))),
            ROUND => Ok(Asked::One(Unary::Whole(Function::Round))),
            ROUND_TIES_EVEN => Ok(Asked::One(Unary::Whole(Function::RoundTiesEven))),
            SIGN => Ok(Asked::One(Unary::Whole(Function::Sign))),
            TRUNC => Ok(Asked::One(Unary::Whole(Function::Trunc))),
            OVERLAP => Ok(Asked::Overlap),
            EQUAL => Ok(Asked::Comparison(Comparison::Equal)),
            SUBSET => Ok(Asked::Comparison(Comparison::Subset)),
            INTERIOR => Ok(Asked::Comparison(Comparison::Interior)),
            DISJOINT => Ok(Asked::Comparison(Comparison::Disjoint)),
            LESS => Ok(Asked::Comparison(Comparison::Less)),
            STRICT_LESS => Ok(Asked::Comparison(Comparison::StrictLess)),
            PRECEDES => Ok(Asked::Comparison(Comparison::Precedes)),
            STRICT_PRECEDES => Ok(Asked::Comparison(Comparison::StrictPrecedes)),
            BEFORE | BEHIND..=GREATEST => Err(Refusal::UnknownOperation),
        }
    }
}

impl TryFrom<u8> for AskedExact {
    type Error = Refusal;

    ghost try_from_gives = { AskedExactBy };

    fn try_from(number: u8) -> Result<AskedExact, Refusal> {
        match number {
            NEG => Ok(AskedExact::Neg),
            ADD => Ok(AskedExact::Two(Arithmetic::Add)),
            SUB => Ok(AskedExact::Two(Arithmetic::Sub)),
            MUL => Ok(AskedExact::Two(Arithmetic::Mul)),
            DIV => Ok(AskedExact::Two(Arithmetic::Div)),
            BEFORE | BEHIND_ARITHMETIC..=GREATEST => Err(Refusal::UnknownOperation),
        }
    }
}

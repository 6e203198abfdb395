// Why a call is refused: what is wrong with an operand, and what is wrong with the call itself, with the numbers of document 01. It stands on
// the definition of a refusal (`meaning`), and all calls share it.
#![tactic(auto)]

ghost use Rattle.std.specs.Prelude.{◌≡◌};
ghost use Rattle.refusals.specs.RefusalMeaning.{refusal_of};
ghost use Rattle.refusals.specs.declared.Place.{Place};
ghost use Rattle.refusals.specs.declared.Refusal.{Refusal};

// Where nothing has an index.
const NO_INDEX: u32 = 0;

// What is wrong with an operand, in the order in which it is tried.
#[derive(Clone, Copy, PartialEq, Eq)]
pub enum Fault {
    // The byte of a decoration is none that a decoration has.
    BadByte,
    // The ends are those of no interval.
    BadEnds,
    // The decoration does not go with the ends.
    BadDecoration,
}

// Which operand it is.
#[derive(Clone, Copy, PartialEq, Eq)]
pub enum Place {
    // The first operand, or the only one.
    First,
    Second,
}

// Why a call is refused.
#[derive(Clone, Copy, PartialEq, Eq)]
pub enum Refusal {
    // The input's length is not the one fixed for the call.
    WrongLength,
    // The output's length is not that of the answer.
    WrongRoom,
    // The operation number is that of no operation.
    UnknownOperation,
    // An operand is wrong.
    Operand(Place, Fault),
}

// `?` refuses the first operand, or the only one.
impl From<Fault> for Refusal {
    ghost from_gives = { λ fault r. r ≡ Refusal.Operand Place.First fault };

    fn from(fault: Fault) -> Refusal {
        Refusal::Operand(Place::First, fault)
    }
}

impl Refusal {
    // The refusal of the second operand.
    pub fn second(fault: Fault) -> Refusal
        ensures { result ≡ Refusal.Operand Place.Second fault }
    {
        Refusal::Operand(Place::Second, fault)
    }

    // Document 01's number.
    pub fn number(self) -> u8
        ensures { result ≡ (refusal_of self).number }
    {
        match self {
            Refusal::WrongLength => 1,
            Refusal::WrongRoom => 2,
            Refusal::UnknownOperation => 3,
            Refusal::Operand(_, Fault::BadByte) => 4,
            Refusal::Operand(_, Fault::BadEnds) => 5,
            Refusal::Operand(_, Fault::BadDecoration) => 6,
        }
    }

    // The place of the operand that is wrong, and 0 where none is.
    pub fn place(self) -> u8
        ensures { result ≡ (refusal_of self).place }
    {
        match self {
            Refusal::WrongLength | Refusal::WrongRoom | Refusal::UnknownOperation => 0,
            Refusal::Operand(Place::First, _) => 1,
            Refusal::Operand(Place::Second, _) => 2,
        }
    }

    // The index, which is 0, since nothing that can be passed has one.
    pub fn index(self) -> u32
        ensures { result ≡ (refusal_of self).index }
    {
        NO_INDEX
    }
}

// The decorations.

// The decoration of a `DecInterval`, from the lowest to the highest, each with its byte.
#[derive(Clone, Copy, PartialEq, Eq, PartialOrd, Ord)]
pub enum Decoration {
    // The "ill-formed" decoration.
    Ill = 0,
    // The "trivial" decoration.
    Trv = 4,
    // The "defined" decoration.
    Def = 8,
    // The "defined and continuous" decoration.
    Dac = 12,
    // The "common" decoration.
    Com = 16,
}

// The byte of a decoration, and the decoration of a byte.
ghost use Rattle.decorations.specs.DecorationBytes.{IsByteOf, SaidBy};

use crate::types::Decoration;
use refusals::Fault;

// The bytes rise as the decorations do.
impl From<Decoration> for u8 {
    ghost from_gives = { IsByteOf };

    fn from(d: Decoration) -> u8 {
        d as u8
    }
}

const ILL: u8 = Decoration::Ill as u8;

const TRV: u8 = Decoration::Trv as u8;

const DEF: u8 = Decoration::Def as u8;

const DAC: u8 = Decoration::Dac as u8;

const COM: u8 = Decoration::Com as u8;

impl TryFrom<u8> for Decoration {
    type Error = Fault;

    ghost try_from_gives = { SaidBy };

    fn try_from(byte: u8) -> Result<Decoration, Fault> {
        match byte {
            ILL => Ok(Decoration::Ill),
            TRV => Ok(Decoration::Trv),
            DEF => Ok(Decoration::Def),
            DAC => Ok(Decoration::Dac),
            COM => Ok(Decoration::Com),
            _ => Err(Fault::BadByte),
        }
    }
}

// The decorated interval.
ghost use Rattle.meaning.specs.Forms.{decorated_form};
ghost use Rattle.dec_interval.specs.DecIntervalMeaning.{dec_pair_of};

use decorations::{Decoration, judge_dec};
use end_pairs::EndPair;
use interval::{Form, Interval};
use refusals::Fault;

// The decorated version of `Interval`.
#[derive(Clone, Copy)]
pub struct DecInterval {
    pub x: Interval,
    pub d: Decoration,
}

impl DecInterval {
    pub const EMPTY: DecInterval = DecInterval {
        x: Interval::EMPTY,
        d: Decoration::Trv,
    };

    pub const NAI: DecInterval = DecInterval {
        x: Interval {
            ends: EndPair::NANS,
        },
        d: Decoration::Ill,
    };
}

impl Form for DecInterval {
    ghost form = { decorated_form };

    ghost value = { dec_pair_of };

    fn judge(self) -> Result<(), Fault> {
        judge_dec(self.x.ends, self.d)
    }
}

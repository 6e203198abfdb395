// The decoration of an answer.
ghost use Rattle.patterns.specs.Format.{binary64};
ghost use Rattle.meaning.specs.Pairs.{Bare};
ghost use Rattle.interval.specs.IntervalMeaning.{pair_of};
ghost use Rattle.decorations.specs.DecorationMeaning.{decoration_of};
ghost use Rattle.dec_interval.specs.DecIntervalMeaning.{dec_pair_of};
ghost use Rattle.operation_steps.specs.Sorted.{DecoratedBy};

use dec_interval::DecInterval;
use decorations::{Decoration, lower_decoration, settled};
use interval::Interval;

// The interval z with the lower of what the operation allows and the operands' own decoration, through `set_dec`.
pub fn decorate(z: Interval, allowed: Decoration, operands: Decoration) -> DecInterval
    requires { Bare binary64 (pair_of z) }
    ensures { DecoratedBy binary64 (pair_of z) (decoration_of allowed) (decoration_of operands) (dec_pair_of result) }
{
    DecInterval {
        x: z,
        d: settled(z.ends, lower_decoration(allowed, operands)),
    }
}

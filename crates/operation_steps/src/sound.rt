// What operations ask of sound operands: the lower of their decorations, or none if one of them is NaI.
ghost use Rattle.std.specs.Prelude.{◌⊎◌};
ghost use Rattle.patterns.specs.Format.{binary64};
ghost use Rattle.meaning.specs.Pairs.{Bare, NaNs};
ghost use Rattle.meaning.specs.Decorations.{lower_of};
ghost use Rattle.meaning.specs.Statement.{JudgedDecorated, sound};
ghost use Rattle.interval.specs.IntervalMeaning.{pair_of};
ghost use Rattle.decorations.specs.DecorationMeaning.{decoration_of};
ghost use Rattle.dec_interval.specs.DecIntervalMeaning.{dec_pair_of};
ghost use Rattle.operation_steps.specs.Sorted.{Sorted};

use dec_interval::DecInterval;
use decorations::{Decoration, lower_decoration};
use end_pairs::are_nans;

pub fn one_operand(x: DecInterval) -> Option<Decoration>
    requires { JudgedDecorated binary64 (dec_pair_of x) sound }
    ensures { Sorted (NaNs binary64 (pair_of x.x)) (Bare binary64 (pair_of x.x)) (decoration_of x.d) result }
{
    if are_nans(x.x.ends) {
        return None;
    }
    Some(x.d)
}

pub fn two_operands(x: DecInterval, y: DecInterval) -> Option<Decoration>
    requires { JudgedDecorated binary64 (dec_pair_of x) sound × JudgedDecorated binary64 (dec_pair_of y) sound }
    ensures { Sorted (NaNs binary64 (pair_of x.x) ⊎ NaNs binary64 (pair_of y.x)) (Bare binary64 (pair_of x.x) × Bare binary64 (pair_of y.x)) (lower_of (decoration_of x.d) (decoration_of y.d)) result }
{
    if are_nans(x.x.ends) || are_nans(y.x.ends) {
        return None;
    }
    Some(lower_decoration(x.d, y.d))
}

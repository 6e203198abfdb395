// Which ends and decorations are those of a decorated interval.
ghost use Rattle.patterns.specs.Format.{binary64};
ghost use Rattle.meaning.specs.Statement.{Ends, Agrees, Found₁, JudgedDecorated};
ghost use Rattle.truth.specs.Answers.{Answers};
ghost use Rattle.end_pairs.specs.EndPairMeaning.{pair_of};
ghost use Rattle.refusals.specs.RefusalMeaning.{verdict_of};
ghost use Rattle.decorations.specs.DecorationMeaning.{decoration_of};

use crate::types::Decoration;
use end_pairs::{EndPair, are_nans, has_ends, is_bare, is_bounded, is_proper};
use refusals::Fault;

// Whether the decoration goes with the ends, which are those of an interval or of NaI.
fn agrees(ends: EndPair, d: Decoration) -> bool
    requires { Ends binary64 (pair_of ends) }
    ensures { Answers (Agrees binary64 (record { pair = pair_of ends; decoration = decoration_of d })) result }
{
    match d {
        Decoration::Ill => are_nans(ends),
        Decoration::Trv => is_bare(ends),
        Decoration::Def => is_proper(ends),
        Decoration::Dac => is_proper(ends),
        Decoration::Com => is_bounded(ends),
    }
}

// What is found of the ends and the decoration of a decorated operand.
pub fn judge_dec(ends: EndPair, d: Decoration) -> Result<(), Fault>
    ensures { Found₁ (JudgedDecorated binary64) (record { pair = pair_of ends; decoration = decoration_of d }) (verdict_of result) }
{
    if !has_ends(ends) {
        return Err(Fault::BadEnds);
    }
    if !agrees(ends, d) {
        return Err(Fault::BadDecoration);
    }
    Ok(())
}

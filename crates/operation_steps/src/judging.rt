// Two operands are judged before anything else is done, the first before the second.
ghost use Rattle.patterns.specs.Format.{binary64};
ghost use Rattle.meaning.specs.Forms.{JudgedValue};
ghost use Rattle.meaning.specs.Statement.{Found₂};
ghost use Rattle.refusals.specs.RefusalMeaning.{outcome};

use interval::Form;
use refusals::Refusal;

// The first that is wrong is refused, with its place.
pub fn judge_two<T: Form>(x: T, y: T) -> Result<(), Refusal>
    ensures { Found₂ (JudgedValue binary64 T.form) (T.value x) (T.value y) (outcome result) }
{
    x.judge()?;
    y.judge().map_err(Refusal::second)
}

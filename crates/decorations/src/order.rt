// The order of decorations, which is that of their bytes.
ghost use Rattle.std.specs.Prelude.{◌≡◌};
ghost use Rattle.meaning.specs.Decorations as meant;
ghost use Rattle.decorations.specs.DecorationMeaning.{decoration_of};

use crate::types::Decoration;

// The lower of two decorations.
pub fn lower_decoration(d: Decoration, e: Decoration) -> Decoration
    ensures { decoration_of result ≡ meant.lower_of (decoration_of d) (decoration_of e) }
{
    d.min(e)
}

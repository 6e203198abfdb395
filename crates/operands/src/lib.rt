// The operations and comparisons by name and the overlapping state of operands that were judged already, in either form. What stands on this
// trait is written once for bare and for decorated intervals. It stands on them in each form (`operations`, `boolean`, `overlap`).
#![tactic(auto)]

ghost use Rattle.patterns.specs.Format.{binary64};
ghost use Rattle.meaning.specs.Forms.{JudgedValue};
ghost use Rattle.meaning.specs.FormStatements.{Right₁, Right₂, FormsCompare, StateNumber};
ghost use Rattle.meaning.specs.Statement.{sound};
ghost use Rattle.truth.specs.Answers.{Answers};
ghost use Rattle.operation_names.specs.Names.{unary_of, binary_of, comparison_of};
ghost use Rattle.overlap.specs.OverlapMeaning.{dec_number_of};

use boolean::{compares, compares_dec};
use dec_interval::DecInterval;
use interval::{Form, Interval};
use operation_names::{Binary, Comparison, Unary};
use operations::{combine, combine_dec, image, image_dec};
use overlap::{Overlap, overlap_of, overlap_of_dec};

// A sound operand, bare or decorated.
pub trait Operand: Form {
    // The hull of the results of an operation of one operand, with its decoration in the decorated form.
    fn image(f: Unary, x: Self) -> Self
        requires { JudgedValue binary64 Self.form (Self.value x) sound }
        ensures { Right₁ binary64 Self.form (unary_of f) (Self.value x) (Self.value result) };

    // The same of an operation of two operands.
    fn combine(o: Binary, x: Self, y: Self) -> Self
        requires { JudgedValue binary64 Self.form (Self.value x) sound × JudgedValue binary64 Self.form (Self.value y) sound }
        ensures { Right₂ binary64 Self.form (binary_of o) (Self.value x) (Self.value y) (Self.value result) };

    // Whether two operands compare.
    fn compares(c: Comparison, x: Self, y: Self) -> bool
        requires { JudgedValue binary64 Self.form (Self.value x) sound × JudgedValue binary64 Self.form (Self.value y) sound }
        ensures { Answers (FormsCompare binary64 Self.form (comparison_of c) (Self.value x) (Self.value y)) result };

    // The overlapping state of two operands, of which NaI has none.
    fn state(x: Self, y: Self) -> Option<Overlap>
        requires { JudgedValue binary64 Self.form (Self.value x) sound × JudgedValue binary64 Self.form (Self.value y) sound }
        ensures { StateNumber binary64 Self.form (Self.value x) (Self.value y) (dec_number_of result) };
}

impl Operand for Interval {
    fn image(f: Unary, x: Interval) -> Interval {
        image(f, x)
    }

    fn combine(o: Binary, x: Interval, y: Interval) -> Interval {
        combine(o, x, y)
    }

    fn compares(c: Comparison, x: Interval, y: Interval) -> bool {
        compares(c, x.ends, y.ends)
    }

    fn state(x: Interval, y: Interval) -> Option<Overlap> {
        Some(overlap_of(x.ends, y.ends))
    }
}

impl Operand for DecInterval {
    fn image(f: Unary, x: DecInterval) -> DecInterval {
        image_dec(f, x)
    }

    fn combine(o: Binary, x: DecInterval, y: DecInterval) -> DecInterval {
        combine_dec(o, x, y)
    }

    fn compares(c: Comparison, x: DecInterval, y: DecInterval) -> bool {
        compares_dec(c, x, y)
    }

    fn state(x: DecInterval, y: DecInterval) -> Option<Overlap> {
        overlap_of_dec(x, y)
    }
}

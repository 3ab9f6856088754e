// The interface of a method, which adds and doubles divisors.
ghost use Rattle.std.specs.Prelude.{◌≡◌};
ghost use Rattle.fields.specs.Lawful.{Lawful};
ghost use Rattle.methods.specs.Curves.{Accepted};
ghost use Rattle.methods.specs.Methods.{Law};

use crate::curve::Curve;
use crate::divisor::{Divisor, DivisorRefusal};
use fields::Field;

// A method keeps no state: its functions stand alone, and are handed the field by reference and the curve as a copy. A rule of
// the project fixes this form, so that field and curve travel as two parameters, here and in what the methods call. Over any
// field and for all numbers they are safe and end. Its meaning is what they answer over lawful fields and on accepted curves;
// that those answers are the sums and doubles is a property of the meaning, `LawfulMethod`.
pub trait Method<F: Field> {
    ghost answers: { Law };

    // The sum of two valid divisors; or the refusal of the first operand, or else of the second, as on entry.
    fn add(field: &F, curve: Curve, a: Divisor, b: Divisor) -> Result<Divisor, DivisorRefusal>
        ensures { Lawful (F.Field.meaning field.now) → Accepted (F.Field.meaning field.now) curve → result ≡ answers.add (F.Field.meaning field.now) curve a b };

    // The double of a valid divisor; or its refusal, as on entry.
    fn double(field: &F, curve: Curve, a: Divisor) -> Result<Divisor, DivisorRefusal>
        ensures { Lawful (F.Field.meaning field.now) → Accepted (F.Field.meaning field.now) curve → result ≡ answers.double (F.Field.meaning field.now) curve a };
}

// The polynomial method, which follows the definitions of sums and doubles on polynomials.
ghost use Rattle.std.specs.Prelude.{◌≡◌};
ghost use Rattle.fields.specs.Arithmetic.{Arithmetic};
ghost use Rattle.fields.specs.Lawful.{Lawful};
ghost use Rattle.methods.specs.Divisors.{Valid};
ghost use Rattle.methods.specs.Sums.{plus};
ghost use Rattle.methods.specs.Methods.{LawfulMethod, the_law};

use crate::composition::compose;
use crate::curve::Curve;
use crate::divisor::{Divisor, DivisorRefusal, entered};
use crate::method::Method;
use crate::reduction::reduce;
use fields::Field;

// Composition and reduction by polynomials, on every curve.
#[derive(Clone, Copy, Debug, Default, PartialEq, Eq, Hash)]
pub struct ByPolynomials;

impl ByPolynomials {
    // The method. Its answers are lawful.
    pub fn new() -> ByPolynomials
        ensures { LawfulMethod the_law }
    {
        ByPolynomials
    }
}

impl<F: Field> Method<F> for ByPolynomials {
    ghost answers = { the_law };

    fn add(field: &F, curve: Curve, a: Divisor, b: Divisor) -> Result<Divisor, DivisorRefusal> {
        entered(field, curve, a)?;
        entered(field, curve, b)?;
        Ok(sum(field, curve, a, b))
    }

    fn double(field: &F, curve: Curve, a: Divisor) -> Result<Divisor, DivisorRefusal> {
        entered(field, curve, a)?;
        Ok(sum(field, curve, a, a))
    }
}

// The sum of two valid divisors.
fn sum<F: Field>(field: &F, curve: Curve, a: Divisor, b: Divisor) -> Divisor
    ensures { (let K : Arithmetic = F.Field.meaning field.now in Lawful K → Valid K curve a → Valid K curve b → result ≡ plus K curve a b) }
{
    reduce(field, curve, compose(field, curve, a, b))
}

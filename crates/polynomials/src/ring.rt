// The ring of polynomials: sums, negatives, multiples and products; and derivatives.
ghost use Rattle.fields.specs.Arithmetic.{Arithmetic};
ghost use Rattle.fields.specs.Lawful.{Lawful};
ghost use Rattle.polynomials.specs.Polynomial.{sum, negative, difference, multiple, derivative};
ghost use Rattle.polynomials.specs.Ten.{value, Is, Product};

use crate::codes::{Polynomial, clean};
use crate::rows::{add, derive, negate, scale, shift};
use fields::Field;

// a + b
pub fn sum<F: Field>(field: &F, a: Polynomial, b: Polynomial) -> Polynomial
    ensures { (let K : Arithmetic = F.Field.meaning field.now in Lawful K → Is K result.codes (sum K (value K a.codes) (value K b.codes))) }
{
    add(field, clean(field, a), clean(field, b))
}

// −a
pub fn negative<F: Field>(field: &F, a: Polynomial) -> Polynomial
    ensures { (let K : Arithmetic = F.Field.meaning field.now in Lawful K → Is K result.codes (negative K (value K a.codes))) }
{
    negate(field, clean(field, a))
}

// a − b
pub fn difference<F: Field>(field: &F, a: Polynomial, b: Polynomial) -> Polynomial
    ensures { (let K : Arithmetic = F.Field.meaning field.now in Lawful K → Is K result.codes (difference K (value K a.codes) (value K b.codes))) }
{
    add(field, clean(field, a), negate(field, clean(field, b)))
}

// x·a
pub fn multiple<F: Field>(field: &F, x: u32, a: Polynomial) -> Polynomial
    ensures { (let K : Arithmetic = F.Field.meaning field.now in Lawful K → Is K result.codes (multiple K x (value K a.codes))) }
{
    scale(field, x, clean(field, a))
}

// a·b, of which the ten lowest codes are kept: all of them where the degrees add up to 9 at most
pub fn product<F: Field>(field: &F, a: Polynomial, b: Polynomial) -> Polynomial
    ensures { (let K : Arithmetic = F.Field.meaning field.now in Lawful K → Product K a.codes b.codes result.codes) }
{
    let left = clean(field, a);
    let right = clean(field, b);
    let mut r = Polynomial::ZERO;
    for &code in left.codes.iter().rev() {
        r = add(field, scale(field, code, right), shift(0, r));
    }
    r
}

// The derivative of a.
pub fn derivative<F: Field>(field: &F, a: Polynomial) -> Polynomial
    ensures { (let K : Arithmetic = F.Field.meaning field.now in Lawful K → Is K result.codes (derivative K (value K a.codes))) }
{
    derive(field, clean(field, a))
}

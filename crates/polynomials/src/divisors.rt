// Greatest common divisors.
ghost use Rattle.fields.specs.Arithmetic.{Arithmetic};
ghost use Rattle.fields.specs.Lawful.{Lawful};
ghost use Rattle.polynomials.specs.Polynomial.{euclid};
ghost use Rattle.polynomials.specs.Ten.{value, CommonOf, Combines};

use crate::codes::{Polynomial, clean};
use crate::division::divide;
use crate::ring::{difference, multiple, product};
use crate::shape::{is_zero, leading, places};
use fields::Field;

// A common divisor of two polynomials a and b with its cofactors: divisor = first·a + second·b.
#[derive(Clone, Copy, Debug)]
pub struct Combination {
    pub divisor: Polynomial,
    pub first: Polynomial,
    pub second: Polynomial,
}

// Euclid's steps, at most so many of them.
fn euclid<F: Field>(field: &F, steps: usize, a: Polynomial, b: Polynomial) -> Combination
    ensures { (let K : Arithmetic = F.Field.meaning field.now in Lawful K → CommonOf K (euclid K steps (value K a.codes) (value K b.codes)) a.codes b.codes result.divisor.codes result.first.codes result.second.codes) }
{
    let whole = clean(field, a);
    if steps == 0 || is_zero(field, b) {
        return Combination {
            divisor: whole,
            first: Polynomial::ONE,
            second: Polynomial::ZERO,
        };
    }
    let (q, r) = divide(field, a, b);
    let below = euclid(field, steps - 1, b, r);
    let t = product(field, q, below.second);
    Combination {
        divisor: below.divisor,
        first: below.second,
        second: difference(field, below.first, t),
    }
}

// The monic greatest common divisor of a and b with its cofactors. That of 0 and 0 is 0.
pub fn gcd<F: Field>(field: &F, a: Polynomial, b: Polynomial) -> Combination
    ensures { (let K : Arithmetic = F.Field.meaning field.now in Lawful K → Combines K a.codes b.codes result.divisor.codes result.first.codes result.second.codes) }
{
    let g = euclid(field, places(field, b) + 1, a, b);
    let l = field.inverse(leading(field, g.divisor));
    Combination {
        divisor: multiple(field, l, g.divisor),
        first: multiple(field, l, g.first),
        second: multiple(field, l, g.second),
    }
}

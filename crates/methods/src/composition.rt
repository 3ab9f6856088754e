// Cantor's composition: from two divisors one in their class, whose u may still have any degree up to 4.
ghost use Rattle.std.specs.Prelude.{◌≡◌};
ghost use Rattle.fields.specs.Arithmetic.{Arithmetic};
ghost use Rattle.fields.specs.Lawful.{Lawful};
ghost use Rattle.polynomials.specs.Ten.{value};
ghost use Rattle.methods.specs.Curves.{sextic as sextic_of};
ghost use Rattle.methods.specs.Divisors.{u_of, v_of, Valid};
ghost use Rattle.methods.specs.Sums.{Combining, numerator as numerator_of, composed};
ghost use Rattle.methods.specs.Steps.{bezout_of, composite_of, Short};

use crate::curve::{Curve, sextic};
use crate::divisor::{Divisor, degree_of};
use fields::Field;
use polynomials::{Polynomial, divide, gcd, product, sum};

// d = e1·u1 + e2·u2 + e3·(v1 + v2)
#[derive(Clone, Copy, Debug)]
pub struct Cofactors {
    pub d: Polynomial,
    pub e1: Polynomial,
    pub e2: Polynomial,
    pub e3: Polynomial,
}

// A divisor by its polynomials, whose n may be −1.
#[derive(Clone, Copy, Debug)]
pub struct Composition {
    pub u: Polynomial,
    pub v: Polynomial,
    pub n: i16,
}

// The monic greatest common divisor of u1, u2 and v1 + v2, with cofactors.
fn bezout<F: Field>(field: &F, a: Divisor, b: Divisor) -> Cofactors
    ensures { (let K : Arithmetic = F.Field.meaning field.now in Lawful K → Combining K a b (bezout_of K result) × Short (bezout_of K result)) }
{
    let g = gcd(field, a.u_polynomial(field), b.u_polynomial(field));
    let h = gcd(
        field,
        g.divisor,
        sum(field, a.v_polynomial(field), b.v_polynomial(field)),
    );
    Cofactors {
        d: h.divisor,
        e1: product(field, h.first, g.first),
        e2: product(field, h.first, g.second),
        e3: h.second,
    }
}

// e1·u1·v2 + e2·u2·v1 + e3·(v1·v2 + f)
fn numerator<F: Field>(field: &F, curve: Curve, z: Cofactors, a: Divisor, b: Divisor) -> Polynomial
    ensures { (let K : Arithmetic = F.Field.meaning field.now in Lawful K → Short (bezout_of K z) → value K result.codes ≡ numerator_of K (sextic_of K curve) (bezout_of K z) (u_of K a) (v_of K a) (u_of K b) (v_of K b)) }
{
    let v1 = a.v_polynomial(field);
    let v2 = b.v_polynomial(field);
    let p = product(field, product(field, z.e1, a.u_polynomial(field)), v2);
    let q = product(field, product(field, z.e2, b.u_polynomial(field)), v1);
    let t = product(
        field,
        z.e3,
        sum(field, product(field, v1, v2), sextic(field, curve)),
    );
    sum(field, sum(field, p, q), t)
}

// With d = gcd(u1, u2, v1 + v2) = e1·u1 + e2·u2 + e3·(v1 + v2): u = u1·u2/d², v is the remainder by u of
// (e1·u1·v2 + e2·u2·v1 + e3·(v1·v2 + f))/d, and n = n1 + n2 + deg d − 1.
pub fn compose<F: Field>(field: &F, curve: Curve, a: Divisor, b: Divisor) -> Composition
    ensures { (let K : Arithmetic = F.Field.meaning field.now in Lawful K → Valid K curve a → Valid K curve b → composite_of K result ≡ composed K (sextic_of K curve) a b) }
{
    let z = bezout(field, a, b);
    let (u, _) = divide(
        field,
        product(field, a.u_polynomial(field), b.u_polynomial(field)),
        product(field, z.d, z.d),
    );
    let (s, _) = divide(field, numerator(field, curve, z, a, b), z.d);
    let (_, v) = divide(field, s, u);
    Composition {
        u,
        v,
        n: i16::from(a.n) + i16::from(b.n) + i16::from(degree_of(field, z.d)) - 1,
    }
}

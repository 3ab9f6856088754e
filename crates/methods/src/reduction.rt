// Reduction: a composite that is in range is a divisor as it stands, and from any other one balanced step leads to a divisor
// in its class.
ghost use Rattle.std.specs.Prelude.{◌≡◌, ◌-◌, ◌≤◌, length, if◌then◌else◌, nat_eq, slice_index};
ghost use Rattle.fields.specs.Arithmetic.{Arithmetic};
ghost use Rattle.fields.specs.Lawful.{Lawful};
ghost use Rattle.polynomials.specs.Polynomial.{difference as difference_of, product as product_of, quotient};
ghost use Rattle.polynomials.specs.Ten.{value};
ghost use Rattle.methods.specs.Curves.{sextic as sextic_of, root as root_of};
ghost use Rattle.methods.specs.Sums.{Fair, deg, monic, lifted, stepped, in_range, reduced};
ghost use Rattle.methods.specs.Steps.{composite_of};

use crate::composition::Composition;
use crate::curve::{Curve, root, sextic};
use crate::divisor::{Divisor, degree_of};
use fields::Field;
use polynomials::{
    Polynomial, coefficient, difference, divide, leading, multiple, negative, product, sum,
};

// The composite as a divisor, if it is in range; otherwise what one step makes of it.
#[tactic(auto, unfolding(crate::specs::Sums::reduced))]
pub fn reduce<F: Field>(field: &F, curve: Curve, c: Composition) -> Divisor
    ensures { (let K : Arithmetic = F.Field.meaning field.now in Lawful K → Fair (composite_of K c) → result ≡ reduced K curve (composite_of K c)) }
{
    if is_in_range(field, c) {
        Divisor::from_polynomials(field, c.u, c.v, c.n as u8)
    } else {
        step(field, curve, c)
    }
}

// deg u ≤ 2 and 0 ≤ n ≤ 2 − deg u
fn is_in_range<F: Field>(field: &F, c: Composition) -> bool
    ensures { result ≡ in_range (composite_of (F.Field.meaning field.now) c) }
{
    let d = degree_of(field, c.u);
    d <= 2 && (0..=2 - i16::from(d)).contains(&c.n)
}

// u' is (f − w²)/u made monic, v' the remainder of −w by u', and n' is 2 − deg u' if the x³ coefficient of w is −1,
// otherwise 0.
fn step<F: Field>(field: &F, curve: Curve, c: Composition) -> Divisor
    ensures { (let K : Arithmetic = F.Field.meaning field.now in Lawful K → Fair (composite_of K c) → result ≡ stepped K (sextic_of K curve) (root_of K curve) (composite_of K c)) }
{
    let w = lift(field, curve, c);
    let u = turn(field, curve, w, c.u);
    let (_, v) = divide(field, negative(field, w), u);
    Divisor::from_polynomials(field, u, v, infinity(field, w, u))
}

// n': 2 − deg u' if the x³ coefficient of w is −1, otherwise 0.
fn infinity<F: Field>(field: &F, w: Polynomial, u: Polynomial) -> u8
    ensures { (let K : Arithmetic = F.Field.meaning field.now in result ≡ (if nat_eq (slice_index (value K w.codes) 3) (K.minus 1) then 2 - deg (value K u.codes) else 0)) }
{
    if coefficient(field, w, 3) == field.negative(1) {
        2u8.saturating_sub(degree_of(field, u))
    } else {
        0
    }
}

// w is v, if deg u = 4; else V and the remainder of v − V by u, with −V in place of V, if n < 0.
fn lift<F: Field>(field: &F, curve: Curve, c: Composition) -> Polynomial
    ensures { (let K : Arithmetic = F.Field.meaning field.now in Lawful K → value K result.codes ≡ lifted K (root_of K curve) (composite_of K c)) }
{
    if degree_of(field, c.u) == 4 {
        return c.v;
    }
    let part = root(field, curve);
    let part = if c.n < 0 { negative(field, part) } else { part };
    let (_, r) = divide(field, difference(field, c.v, part), c.u);
    sum(field, part, r)
}

// (f − w²)/u made monic.
fn turn<F: Field>(field: &F, curve: Curve, w: Polynomial, u: Polynomial) -> Polynomial
    ensures { (let K : Arithmetic = F.Field.meaning field.now in Lawful K → length (value K w.codes) ≤ 5 → value K result.codes ≡ monic K (quotient K (difference_of K (sextic_of K curve) (product_of K (value K w.codes) (value K w.codes))) (value K u.codes))) }
{
    let (t, _) = divide(
        field,
        difference(field, sextic(field, curve), product(field, w, w)),
        u,
    );
    multiple(field, field.inverse(leading(field, t)), t)
}

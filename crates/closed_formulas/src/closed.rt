// The layer of closed formulas over a method.
//
// Every call takes every field and curve. So that a field is lawful and a curve accepted stands as a premise in the clauses that
// need it, and is no invariant of a type.
ghost use Rattle.std.specs.Prelude.{◌≡◌, IfSome, is_some};
ghost use Rattle.fields.specs.Arithmetic.{Arithmetic};
ghost use Rattle.fields.specs.Lawful.{Lawful};
ghost use Rattle.mumford.specs.ClosedForms.{quotient as quotient_of};
ghost use Rattle.methods.specs.Curves.{Accepted};
ghost use Rattle.methods.specs.Methods.{Law, LawfulMethod};
ghost use Rattle.closed_formulas.specs.Formulas.{operations, sextic_letters, letters as letters_of, quadratic, has_letters, of_degree_2, sum_formula, double_formula, closed};
ghost use Rattle.closed_formulas.specs.Letters.{quadratic_of, division_of};

use crate::formulas::{
    Quadratic, Quotient, applicable, divide, divide_again, double_by, double_fractions,
    lead_inverse, slope, sum_by, sum_fractions,
};
use fields::Field;
use methods::{Curve, Divisor, DivisorRefusal, Linear, Method, are_codes};

// Sums and doubles of valid divisors of degree 2 by closed formulas, where those apply; everything else as the method underneath
// answers it.
#[derive(Clone, Copy, Debug, PartialEq, Eq, Hash)]
pub struct Closed<M> {
    pub method: M,
}

impl<M> Closed<M> {
    // The layer over a method. Over a lawful method it is lawful.
    pub fn over(method: M) -> Closed<M>
        ensures holds { result.method ≡ method }
        ensures lawful { (law : Law) → LawfulMethod law → LawfulMethod (closed law) }
    {
        Closed { method }
    }
}

impl<F: Field, M: Method<F>> Method<F> for Closed<M> {
    ghost answers = { closed M.Method.answers };

    fn add(field: &F, curve: Curve, a: Divisor, b: Divisor) -> Result<Divisor, DivisorRefusal> {
        sum_by_formula(field, curve, a, b).map_or_else(|| M::add(field, curve, a, b), Ok)
    }

    fn double(field: &F, curve: Curve, a: Divisor) -> Result<Divisor, DivisorRefusal> {
        double_by_formula(field, curve, a).map_or_else(|| M::double(field, curve, a), Ok)
    }
}

// The sum, where both divisors are valid and of degree 2, r ≠ 0 and p² ≠ r².
#[tactic(auto, unfolding(crate::specs::Formulas::sum_formula))]
fn sum_by_formula<F: Field>(field: &F, curve: Curve, a: Divisor, b: Divisor) -> Option<Divisor>
    ensures { (let K : Arithmetic = F.Field.meaning field.now in Lawful K → Accepted K curve → result ≡ sum_formula K curve a b) }
{
    let (d1, _) = divided(field, curve, a)?;
    let (d2, _) = divided(field, curve, b)?;
    let n = applicable(field, sum_fractions(field, d1, d2))?;
    let s = slope(field, d2, n);
    let i = lead_inverse(field, s);
    Some(sum_by(field, curve, d1, d2, s, i).into())
}

// The double, where the divisor is valid and of degree 2, r ≠ 0 and p² ≠ r².
#[tactic(auto, unfolding(crate::specs::Formulas::double_formula))]
fn double_by_formula<F: Field>(field: &F, curve: Curve, a: Divisor) -> Option<Divisor>
    ensures { (let K : Arithmetic = F.Field.meaning field.now in Lawful K → Accepted K curve → result ≡ double_formula K curve a) }
{
    let (d, q) = divided(field, curve, a)?;
    let t = divide_again(field, d, q);
    let n = applicable(field, double_fractions(field, d, t))?;
    let s = slope(field, d, n);
    let i = lead_inverse(field, s);
    Some(double_by(field, d, t, s, i).into())
}

// The letters of a divisor that is valid and of degree 2, and f − v² divided by its u, which leaves nothing.
fn divided<F: Field>(field: &F, curve: Curve, a: Divisor) -> Option<(Quadratic, Quotient)>
    ensures tells { (let K : Arithmetic = F.Field.meaning field.now in Lawful K → Accepted K curve → is_some result ≡ of_degree_2 K curve a) }
    ensures letters { IfSome result (λ r. quadratic_of r.0 ≡ letters_of a) }
    ensures quotient { IfSome result (λ r. division_of r.1 ≡ quotient_of (operations (F.Field.meaning field.now)) (sextic_letters curve) (quadratic_of r.0)) }
{
    let d = letters(field, a)?;
    let q = divide(field, curve, d);
    (q.m == 0 && q.l == 0).then_some((d, q))
}

// a, b, c and e of [x² + a·x + b; c·x + e; 0], where the degree is 2, n = 0 and the coefficients are codes.
fn letters<F: Field>(field: &F, a: Divisor) -> Option<Quadratic>
    ensures tells { is_some result ≡ has_letters (F.Field.meaning field.now) a }
    ensures letters { IfSome result (λ d. quadratic_of d ≡ letters_of a) }
{
    let Divisor { degree, u, v, n } = a;
    let lettered = degree == 2 && n == 0 && are_codes(field, &[u.x1, u.x0, v.x1, v.x0]);
    lettered.then_some(Quadratic {
        a: u.x1,
        b: u.x0,
        c: v.x1,
        e: v.x0,
    })
}

// [x² + a·x + b; c·x + e; 0]
impl From<Quadratic> for Divisor {
    ghost from_gives = { λ d divisor. divisor ≡ quadratic (quadratic_of d) };

    fn from(d: Quadratic) -> Divisor {
        Divisor::of_degree_2(Linear { x1: d.a, x0: d.b }, Linear { x1: d.c, x0: d.e })
    }
}

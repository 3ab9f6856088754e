// Divisors in Mumford representation, with a count for one of the two points at infinity.
ghost use Rattle.std.specs.Prelude.{◌≡◌, ◌-◌, ◌<◌, ◌&&◌, length, take, slice_index};
ghost use Rattle.fields.specs.Arithmetic.{Arithmetic};
ghost use Rattle.fields.specs.Lawful.{Lawful};
ghost use Rattle.polynomials.specs.Ten.{value};
ghost use Rattle.methods.specs.Divisors.{u_of, v_of, divisor_of, shaped, unused, linear_codes, on_curve, entered as entered_as, Valid, neutral as neutral_divisor, opposite, divisor_refusal_number};

use crate::codes::are_codes;
use crate::curve::{Curve, sextic};
use fields::Field;
use polynomials::{Polynomial, coefficient, degree, difference, divide, is_zero, product};
use std::error::Error;
use std::fmt;

// x1·x + x0
#[derive(Clone, Copy, Debug, PartialEq, Eq, Hash)]
pub struct Linear {
    pub x1: u32,
    pub x0: u32,
}

// [u; v; n]: u is monic of this degree, with the lower coefficients given; v has a smaller degree, and coefficients that are
// not used are 0; n counts the point at infinity where y/x³ is 1. Degree and single coefficients stand beside each other: a rule
// of the project, so that a divisor is copied and has no memory of its own.
#[derive(Clone, Copy, Debug, PartialEq, Eq, Hash)]
pub struct Divisor {
    pub degree: u8,
    pub u: Linear,
    pub v: Linear,
    pub n: u8,
}

// Why a divisor is refused.
#[derive(Clone, Copy, Debug, PartialEq, Eq, Hash)]
pub enum DivisorRefusal {
    // 4: the degree is above 2, n is above 2 − degree, or an unused coefficient is not 0
    Shape,
    // 5: a coefficient is above q − 1
    NotACode,
    // 9: u does not divide f − v²
    NotOnCurve,
}

impl DivisorRefusal {
    // The number of the condition. A method and no conversion: the number alone does not say which refusal it is, since a
    // curve has a refusal 5 too.
    pub fn number(self) -> u8
        ensures { result ≡ divisor_refusal_number self }
    {
        match self {
            DivisorRefusal::Shape => 4,
            DivisorRefusal::NotACode => 5,
            DivisorRefusal::NotOnCurve => 9,
        }
    }
}

// The condition in words, which no clause states: it would write each text a second time.
impl fmt::Display for DivisorRefusal {
    fn fmt<W: fmt::Write>(&self, f: &mut fmt::Formatter<W>) -> fmt::Result {
        match self {
            DivisorRefusal::Shape => write!(
                f,
                "the degree is above 2, n is above 2 − degree, or an unused coefficient is not 0"
            ),
            DivisorRefusal::NotACode => write!(f, "a coefficient is above q − 1"),
            DivisorRefusal::NotOnCurve => write!(f, "u does not divide f − v²"),
        }
    }
}

impl Error for DivisorRefusal {}

impl Divisor {
    // [1; 0; 1], which is valid on every curve.
    pub fn neutral() -> Divisor
        ensures value { result ≡ neutral_divisor }
        ensures valid { (K : Arithmetic) (C : Curve) → Lawful K → Valid K C result }
    {
        let zero = Linear { x1: 0, x0: 0 };
        Divisor {
            degree: 0,
            u: zero,
            v: zero,
            n: 1,
        }
    }

    // [x² + u; v; 0]
    pub fn of_degree_2(u: Linear, v: Linear) -> Divisor
        ensures { result ≡ record { degree = 2; u = u; v = v; n = 0 } }
    {
        Divisor {
            degree: 2,
            u,
            v,
            n: 0,
        }
    }

    // u as a polynomial, in which a number that is no code is read as 0.
    pub fn u_polynomial<F: Field>(self, field: &F) -> Polynomial
        ensures { value (F.Field.meaning field.now) result.codes ≡ u_of (F.Field.meaning field.now) self }
    {
        let x0 = self.u.x0;
        let x1 = self.u.x1;
        match self.degree {
            0 => Polynomial::ONE,
            1 => Polynomial {
                codes: [x0, 1, 0, 0, 0, 0, 0, 0, 0, 0],
            },
            _ => Polynomial {
                codes: [x0, x1, 1, 0, 0, 0, 0, 0, 0, 0],
            },
        }
    }

    // v as a polynomial, in which a number that is no code is read as 0.
    pub fn v_polynomial<F: Field>(self, field: &F) -> Polynomial
        ensures { value (F.Field.meaning field.now) result.codes ≡ v_of (F.Field.meaning field.now) self }
    {
        Polynomial {
            codes: [self.v.x0, self.v.x1, 0, 0, 0, 0, 0, 0, 0, 0],
        }
    }

    // The divisor of a monic u of degree at most 2, a v of a smaller degree, and n.
    #[tactic(auto, unfolding(crate::specs::Divisors::divisor_of))]
    pub fn from_polynomials<F: Field>(field: &F, u: Polynomial, v: Polynomial, n: u8) -> Divisor
        ensures { (let K : Arithmetic = F.Field.meaning field.now in result ≡ divisor_of (value K u.codes) (value K v.codes) n) }
    {
        Divisor {
            degree: degree_of(field, u),
            u: Linear {
                x1: below_leading(field, u, 1),
                x0: below_leading(field, u, 0),
            },
            v: Linear {
                x1: coefficient(field, v, 1),
                x0: coefficient(field, v, 0),
            },
            n,
        }
    }
}

// x1 and x0.
impl fmt::Display for Linear {
    ghost use Rattle.std.specs.Prelude.{Some};
    ghost use Rattle.methods.specs.Texts.{linear_text};

    ghost output = { λ l. Some (linear_text l) };

    fn fmt<W: fmt::Write>(&self, f: &mut fmt::Formatter<W>) -> fmt::Result {
        let Linear { x1, x0 } = self;
        write!(f, "{x1} {x0}")
    }
}

// Degree, u1, u0, v1, v0 and n.
impl fmt::Display for Divisor {
    ghost use Rattle.std.specs.Prelude.{Some};
    ghost use Rattle.methods.specs.Texts.{divisor_text};

    ghost output = { λ d. Some (divisor_text d) };

    fn fmt<W: fmt::Write>(&self, f: &mut fmt::Formatter<W>) -> fmt::Result {
        let Divisor { degree, u, v, n } = self;
        write!(f, "{degree} {u} {v} {n}")
    }
}

// The divisor, if it is valid on the curve; or else why it is not: 4, then 5, then 9.
#[tactic(auto, unfolding(crate::specs::Divisors::entered))]
pub fn entered<F: Field>(field: &F, curve: Curve, d: Divisor) -> Result<Divisor, DivisorRefusal>
    ensures { Lawful (F.Field.meaning field.now) → result ≡ entered_as (F.Field.meaning field.now) curve d }
{
    if !is_shaped(d) {
        return Err(DivisorRefusal::Shape);
    }
    if !has_codes(field, d) {
        return Err(DivisorRefusal::NotACode);
    }
    if !is_on_curve(field, curve, d) {
        return Err(DivisorRefusal::NotOnCurve);
    }
    Ok(d)
}

// [u; −v; 2 − deg u − n]
#[tactic(auto, unfolding(crate::specs::Divisors::opposite))]
pub fn negative<F: Field>(field: &F, d: Divisor) -> Divisor
    ensures { result ≡ opposite (F.Field.meaning field.now) d }
{
    Divisor {
        degree: d.degree,
        u: d.u,
        v: Linear {
            x1: field.negative(d.v.x1),
            x0: field.negative(d.v.x0),
        },
        n: 2u8.saturating_sub(d.degree).saturating_sub(d.n),
    }
}

// The degree of a polynomial, where that of 0 counts as 0.
pub fn degree_of<F: Field>(field: &F, p: Polynomial) -> u8
    ensures within { result < 10 }
    ensures value { result ≡ length (value (F.Field.meaning field.now) p.codes) - 1 }
{
    degree(field, p).unwrap_or(0) as u8
}

// The coefficient of x to the k, if it stands below the leading one.
fn below_leading<F: Field>(field: &F, p: Polynomial, k: u8) -> u32
    ensures { (let K : Arithmetic = F.Field.meaning field.now in result ≡ slice_index (take (length (value K p.codes) - 1) (value K p.codes)) k) }
{
    if k < degree_of(field, p) {
        coefficient(field, p, usize::from(k))
    } else {
        0
    }
}

// Degree at most 2, n at most 2 − degree, and unused coefficients 0.
fn is_shaped(d: Divisor) -> bool
    ensures { result ≡ shaped d }
{
    d.degree <= 2 && d.n <= 2 - d.degree && is_unused(d.degree, d.u) && is_unused(d.degree, d.v)
}

// Whether the coefficients that a polynomial of a smaller degree does not use are 0.
fn is_unused(degree: u8, l: Linear) -> bool
    ensures { result ≡ unused degree l }
{
    match degree {
        0 => l.x1 == 0 && l.x0 == 0,
        1 => l.x1 == 0,
        _ => true,
    }
}

// Whether all coefficients are codes.
fn has_codes<F: Field>(field: &F, d: Divisor) -> bool
    ensures { result ≡ linear_codes (F.Field.meaning field.now) d.u && linear_codes (F.Field.meaning field.now) d.v }
{
    are_codes(field, &[d.u.x1, d.u.x0, d.v.x1, d.v.x0])
}

// Whether u divides f − v².
fn is_on_curve<F: Field>(field: &F, curve: Curve, d: Divisor) -> bool
    ensures { Lawful (F.Field.meaning field.now) → result ≡ on_curve (F.Field.meaning field.now) curve d }
{
    let v = d.v_polynomial(field);
    let (_, rest) = divide(
        field,
        difference(field, sextic(field, curve), product(field, v, v)),
        d.u_polynomial(field),
    );
    is_zero(field, rest)
}

// Curves y² = f(x), f a monic sextic without an x⁵ term, and the polynomials f and V that belong to one.
ghost use Rattle.std.specs.Prelude.{◌≡◌};
ghost use Rattle.polynomials.specs.Ten.{value};
ghost use Rattle.methods.specs.Curves.{sextic as sextic_of, root as root_of, curve_refusal_number};

use fields::Field;
use polynomials::Polynomial;
use std::error::Error;
use std::fmt;

// f = x⁶ + f4·x⁴ + f3·x³ + f2·x² + f1·x + f0, by its coefficients.
#[derive(Clone, Copy, Debug, PartialEq, Eq, Hash)]
pub struct Curve {
    pub f4: u32,
    pub f3: u32,
    pub f2: u32,
    pub f1: u32,
    pub f0: u32,
}

// Why a curve is refused.
#[derive(Clone, Copy, Debug, PartialEq, Eq, Hash)]
pub enum CurveRefusal {
    // 5: a coefficient is above q − 1
    NotACode,
    // 8: f and its derivative share a factor
    Singular,
}

impl CurveRefusal {
    // The number of the condition. A method and no conversion: the number alone does not say which refusal it is, since a
    // divisor has a refusal 5 too.
    pub fn number(self) -> u8
        ensures { result ≡ curve_refusal_number self }
    {
        match self {
            CurveRefusal::NotACode => 5,
            CurveRefusal::Singular => 8,
        }
    }
}

// The condition in words, which no clause states: it would write each text a second time.
impl fmt::Display for CurveRefusal {
    fn fmt<W: fmt::Write>(&self, f: &mut fmt::Formatter<W>) -> fmt::Result {
        match self {
            CurveRefusal::NotACode => write!(f, "a coefficient is above q − 1"),
            CurveRefusal::Singular => write!(f, "f and its derivative share a factor"),
        }
    }
}

impl Error for CurveRefusal {}

// f as a polynomial, in which a number that is no code is read as 0.
pub fn sextic<F: Field>(field: &F, curve: Curve) -> Polynomial
    ensures { value (F.Field.meaning field.now) result.codes ≡ sextic_of (F.Field.meaning field.now) curve }
{
    let Curve { f4, f3, f2, f1, f0 } = curve;
    Polynomial {
        codes: [f0, f1, f2, f3, f4, 0, 1, 0, 0, 0],
    }
}

// V = x³ + (f4/2)·x + f3/2, the polynomial part of the square root of f.
pub fn root<F: Field>(field: &F, curve: Curve) -> Polynomial
    ensures { value (F.Field.meaning field.now) result.codes ≡ root_of (F.Field.meaning field.now) curve }
{
    let half = field.inverse(field.sum(1, 1));
    let v1 = field.product(curve.f4, half);
    let v0 = field.product(curve.f3, half);
    Polynomial {
        codes: [v0, v1, 0, 1, 0, 0, 0, 0, 0, 0],
    }
}

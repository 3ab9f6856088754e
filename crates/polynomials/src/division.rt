// Long division.
ghost use Rattle.std.specs.Prelude.{◌≡◌, ◌<◌, [], length};
ghost use Rattle.fields.specs.Arithmetic.{Arithmetic};
ghost use Rattle.fields.specs.Lawful.{Lawful};
ghost use Rattle.polynomials.specs.Polynomial.{sum, product, quotient, remainder};
ghost use Rattle.polynomials.specs.Ten.{value, Is};

use crate::codes::{Polynomial, clean};
use crate::rows::{add, negate, scale, shift};
use fields::Field;

// Quotient and remainder of a by b: a = q·b + r, where r has a lower degree than b. By 0 they are 0 and a.
pub fn divide<F: Field>(field: &F, a: Polynomial, b: Polynomial) -> (Polynomial, Polynomial)
    ensures quotient { (let K : Arithmetic = F.Field.meaning field.now in Lawful K → Is K result.0.codes (quotient K (value K a.codes) (value K b.codes))) }
    ensures remainder { (let K : Arithmetic = F.Field.meaning field.now in Lawful K → Is K result.1.codes (remainder K (value K a.codes) (value K b.codes))) }
    ensures below { (let K : Arithmetic = F.Field.meaning field.now in Lawful K → 0 < length (value K b.codes) → length (value K result.1.codes) < length (value K b.codes)) }
    ensures whole { (let K : Arithmetic = F.Field.meaning field.now in Lawful K → value K a.codes ≡ sum K (product K (value K result.0.codes) (value K b.codes)) (value K result.1.codes)) }
    ensures by_zero { (let K : Arithmetic = F.Field.meaning field.now in Lawful K → value K b.codes ≡ [] → Is K result.0.codes [] × Is K result.1.codes (value K a.codes)) }
{
    let dividend = clean(field, a);
    let divisor = clean(field, b);
    let highest = divisor.top();
    let inverse = field.inverse(divisor.codes[highest]);
    let mut q = Polynomial::ZERO;
    let mut r = Polynomial::ZERO;
    for &code in dividend.codes.iter().rev() {
        let s = shift(code, r);
        let x = field.product(s.codes[highest], inverse);
        q = shift(x, q);
        r = add(field, s, negate(field, scale(field, x, divisor)));
    }
    (q, r)
}

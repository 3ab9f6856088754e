// What a polynomial looks like: its coefficients, its degree, and whether it is 0 or another one.
ghost use Rattle.std.specs.Prelude.{◌≡◌, ◌<◌, ◌≤◌, length, Decides, slice_index};
ghost use Rattle.fields.specs.Arithmetic.{Arithmetic};
ghost use Rattle.polynomials.specs.Polynomial.{leading, degree, is_zero, same};
ghost use Rattle.polynomials.specs.Ten.{value};

use crate::codes::{Polynomial, clean, read};
use fields::Field;

// How many coefficients there are: the degree and one, and 0 for the polynomial 0.
pub fn places<F: Field>(field: &F, a: Polynomial) -> usize
    ensures within { result ≤ 10 }
    ensures value { result ≡ length (value (F.Field.meaning field.now) a.codes) }
{
    clean(field, a).count()
}

// The degree. That of the polynomial 0 counts as below every number: there is none.
pub fn degree<F: Field>(field: &F, a: Polynomial) -> Option<usize>
    ensures { result ≡ degree (value (F.Field.meaning field.now) a.codes) }
{
    places(field, a).checked_sub(1)
}

// The highest coefficient that is not 0, and 0 for the polynomial 0.
pub fn leading<F: Field>(field: &F, a: Polynomial) -> u32
    ensures { result ≡ leading (value (F.Field.meaning field.now) a.codes) }
{
    let p = clean(field, a);
    p.codes[p.top()]
}

// The coefficient of x to the k, which is 0 above the degree.
pub fn coefficient<F: Field>(field: &F, a: Polynomial, k: usize) -> u32
    ensures { result ≡ slice_index (value (F.Field.meaning field.now) a.codes) k }
{
    a.codes.get(k).map_or(0, |&x| read(field, x))
}

// Whether a is the polynomial 0.
pub fn is_zero<F: Field>(field: &F, a: Polynomial) -> bool
    ensures { result ≡ is_zero (value (F.Field.meaning field.now) a.codes) }
{
    places(field, a) == 0
}

// Whether a and b are one polynomial.
pub fn equal<F: Field>(field: &F, a: Polynomial, b: Polynomial) -> bool
    ensures value { (let K : Arithmetic = F.Field.meaning field.now in result ≡ same (value K a.codes) (value K b.codes)) }
    ensures decides { (let K : Arithmetic = F.Field.meaning field.now in Decides result (value K a.codes ≡ value K b.codes)) }
{
    // A loop that ends at the first codes that differ: `==` on the arrays reads all twenty numbers first.
    let left = clean(field, a);
    let right = clean(field, b);
    for i in 0..10 {
        if left.codes[i] != right.codes[i] {
            return false;
        }
    }
    true
}

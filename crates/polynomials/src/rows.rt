// Operations on ten codes, place by place. They read no number: that is the caller's.
// Each of the first three is one call with its operation as a closure, so no function over an operation stands behind them.
ghost use Rattle.std.specs.Prelude.{◌≡◌, suc, ◌∷◌, slice_index};
ghost use Rattle.polynomials.specs.Polynomial.{numeral};
ghost use Rattle.polynomials.specs.Ten.{Filled};

use crate::codes::Polynomial;
use fields::Field;
use std::array;

// a + b
pub fn add<F: Field>(field: &F, a: Polynomial, b: Polynomial) -> Polynomial
    ensures { Filled 10 result.codes (λ k. (F.Field.meaning field.now).plus (slice_index a.codes k) (slice_index b.codes k)) }
{
    Polynomial {
        codes: array::from_fn(|i| field.sum(a.codes[i], b.codes[i])),
    }
}

// −a
pub fn negate<F: Field>(field: &F, a: Polynomial) -> Polynomial
    ensures { Filled 10 result.codes (λ k. (F.Field.meaning field.now).minus (slice_index a.codes k)) }
{
    Polynomial {
        codes: array::from_fn(|i| field.negative(a.codes[i])),
    }
}

// x·a
pub fn scale<F: Field>(field: &F, x: u32, a: Polynomial) -> Polynomial
    ensures { Filled 10 result.codes (λ k. (F.Field.meaning field.now).times x (slice_index a.codes k)) }
{
    Polynomial {
        codes: array::from_fn(|i| field.product(x, a.codes[i])),
    }
}

// x with a behind it, whose highest code is lost
pub fn shift(x: u32, a: Polynomial) -> Polynomial
    ensures { Filled 10 result.codes (λ k. slice_index (x ∷ a.codes) k) }
{
    let mut codes = [x; 10];
    codes[1..].copy_from_slice(&a.codes[..9]);
    Polynomial { codes }
}

// the derivative of a
pub fn derive<F: Field>(field: &F, a: Polynomial) -> Polynomial
    ensures weighed { Filled 9 result.codes (λ k. (F.Field.meaning field.now).times (numeral (F.Field.meaning field.now) (suc k)) (slice_index a.codes (suc k))) }
    ensures last { slice_index result.codes 9 ≡ 0 }
{
    let mut codes = [0; 10];
    let mut n = 0;
    // By its place and not by `codes.iter_mut()`: outside a plain `for` over it, std's contract tells the row's length alone.
    for (i, &x) in a.codes[1..].iter().enumerate() {
        n = field.sum(1, n);
        codes[i] = field.product(n, x);
    }
    Polynomial { codes }
}

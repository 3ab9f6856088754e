// All valid divisors of a curve.
use fields::Field;
use methods::{Divisor, Linear, Model, entered};
use std::alloc::{AllocError, Global};

// The valid divisors, by degree, u, v and n.
pub fn valid_divisors<F: Field>(
    heap: Global,
    model: &Model<F>,
) -> Result<Vec<Divisor>, AllocError> {
    let (field, curve) = (model.field(), model.curve());
    let mut found = Vec::new(heap);
    for degree in 0..3 {
        let (q1, q0) = coefficients(field.size(), degree);
        // The polynomials below the degree, one after another and not in a list, which would have q² of them.
        let lower = || (0..q1).flat_map(|x1| (0..q0).map(move |x0| Linear { x1, x0 }));
        for u in lower() {
            for v in lower() {
                for n in 0..3 {
                    let d = Divisor { degree, u, v, n };
                    if entered(field, curve, d).is_ok() {
                        found.push(d)?;
                    }
                }
            }
        }
    }
    Ok(found)
}

// How many numbers each of the two coefficients of a polynomial below this degree takes, over a field of q elements.
fn coefficients(q: u32, degree: u8) -> (u32, u32) {
    match degree {
        0 => (1, 1),
        1 => (1, q),
        _ => (q, q),
    }
}

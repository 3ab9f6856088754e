// The two methods on all sums and doubles of a curve.
use crate::divisors::valid_divisors;
use closed_formulas::Closed;
use fields::Field;
use methods::{ByPolynomials, Curve, Divisor, DivisorRefusal, Method, Model};
use notation::{FieldTask, model};
use std::io;

// The sums and doubles of a curve.
#[derive(Clone, Copy, Debug, PartialEq, Eq)]
pub struct AllSums {
    pub curve: Curve,
}

impl FieldTask for AllSums {
    fn run<F: Field + Drop>(self, rt: &HostRuntime, field: F) -> io::Result<()> {
        match model(rt, field, self.curve)? {
            Some(model) => compare_all(rt, &model),
            None => Ok(()),
        }
    }
}

// How many sums and doubles there are, and how many of them differ. The sums are counted row by row, and the rows are added up
// saturating, since it is not known that the square of the number of divisors is below 2⁶⁴.
fn compare_all<F: Field>(rt: &HostRuntime, model: &Model<F>) -> io::Result<()> {
    let (field, curve) = (model.field(), model.curve());
    let all = valid_divisors(rt.alloc(), model)?;
    let sums_with = |a| {
        all.iter()
            .filter(|&&b| {
                differ(
                    Closed::<ByPolynomials>::add(field, curve, a, b),
                    ByPolynomials::add(field, curve, a, b),
                )
            })
            .count()
    };
    let doubles = all
        .iter()
        .filter(|&&a| {
            differ(
                Closed::<ByPolynomials>::double(field, curve, a),
                ByPolynomials::double(field, curve, a),
            )
        })
        .count();
    let count = all.len();
    let differing = all
        .iter()
        .map(|&a| sums_with(a))
        .fold(doubles, usize::saturating_add);
    println!(rt; "{count} divisors, {differing} sums or doubles differ")
}

// Whether an answer is no divisor, or the two are not the same.
fn differ(closed: Result<Divisor, DivisorRefusal>, plain: Result<Divisor, DivisorRefusal>) -> bool {
    closed.is_err() || closed != plain
}

// What is printed for a curve and two divisors, over any field.
use fields::Field;
use methods::{ByPolynomials, Curve, Divisor, DivisorRefusal, Method, Model, entered, negative};
use notation::{FieldTask, model};
use std::{fmt, io};

// A curve that is not checked yet, and two divisors.
#[derive(Clone, Copy, Debug, PartialEq, Eq)]
pub struct Sums {
    curve: Curve,
    first: Divisor,
    second: Divisor,
}

impl Sums {
    // A curve and two divisors by their texts.
    pub fn parse(curve: &str, first: &str, second: &str) -> Option<Sums> {
        Some(Sums {
            first: notation::divisor(first)?,
            second: notation::divisor(second)?,
            curve: notation::curve(curve)?,
        })
    }
}

impl FieldTask for Sums {
    fn run<F: Field + Drop>(self, rt: &HostRuntime, field: F) -> io::Result<()> {
        match model(rt, field, self.curve)? {
            Some(model) => report(rt, &model, self.first, self.second),
            None => Ok(()),
        }
    }
}

// Whether the divisors are valid, their sum, and the double and the negative of the first.
fn report<F: Field>(
    rt: &HostRuntime,
    model: &Model<F>,
    first: Divisor,
    second: Divisor,
) -> io::Result<()> {
    let (field, curve) = (model.field(), model.curve());
    let valid = entered(field, curve, first);
    show(rt, "first", valid.map(|_| "valid"))?;
    show(rt, "second", entered(field, curve, second).map(|_| "valid"))?;
    show(rt, "sum", ByPolynomials::add(field, curve, first, second))?;
    if valid.is_ok() {
        show(rt, "double", ByPolynomials::double(field, curve, first))?;
        show(rt, "negative", Ok(negative(field, first)))?;
    }
    Ok(())
}

// What is answered, or the number of a refusal.
fn show<T: fmt::Display + Drop>(
    rt: &HostRuntime,
    name: &str,
    answer: Result<T, DivisorRefusal>,
) -> io::Result<()> {
    match answer {
        Ok(shown) => println!(rt; "{name} {shown}"),
        Err(refusal) => println!(rt; "{name} refused {}", refusal.number()),
    }
}

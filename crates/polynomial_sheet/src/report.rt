// What is printed for a field and two polynomials.
use fields::Field;
use notation::FieldTask;
use polynomials::{
    Polynomial, coefficient, degree, derivative, difference, divide, equal, gcd, is_zero, leading,
    multiple, negative, places, product, sum,
};
use std::io;

// The two polynomials of a line.
#[derive(Clone, Copy, Debug)]
pub struct Report {
    pub a: Polynomial,
    pub b: Polynomial,
}

impl FieldTask for Report {
    // What the library makes of a and b. The cofactors are `first` and `second`: first·a + second·b is the gcd. The multiple is
    // a times the leading coefficient of b.
    fn run<F: Field + Drop>(self, rt: &HostRuntime, field: F) -> io::Result<()> {
        let Report { a, b } = self;
        let field = &field;
        let (quotient, remainder) = divide(field, a, b);
        let shared = gcd(field, a, b);
        let rows = [
            ("sum", sum(field, a, b)),
            ("difference", difference(field, a, b)),
            ("negative", negative(field, a)),
            ("product", product(field, a, b)),
            ("quotient", quotient),
            ("remainder", remainder),
            ("gcd", shared.divisor),
            ("first", shared.first),
            ("second", shared.second),
            ("derivative", derivative(field, a)),
            ("multiple", multiple(field, leading(field, b), a)),
        ];
        for (name, p) in rows {
            show(rt, field, name, p)?;
        }
        match degree(field, a) {
            Some(n) => println!(rt; "degree {n}")?,
            None => println!(rt; "degree none")?,
        }
        let same = equal(field, a, b);
        println!(rt; "equal {same}")
    }
}

// A polynomial by its coefficients, the lowest first. Each by the call that tells it, and not by a walk over the ten numbers, which
// may be no codes.
fn show<F: Field>(rt: &HostRuntime, field: &F, name: &str, p: Polynomial) -> io::Result<()> {
    print!(rt; "{name}")?;
    if is_zero(field, p) {
        return println!(rt; " 0");
    }
    for k in 0..places(field, p) {
        let code = coefficient(field, p, k);
        print!(rt; " {code}")?;
    }
    println!(rt; "")
}

// Calculates with the polynomials of a sheet. A line of standard input is FIELD | A | B, where the field is `residues M`,
// `nine` or `pairs M R`, and A and B are polynomials by their codes, the lowest coefficient first. The line is printed
// again, and below it what the library makes of A and B, or why the line is refused. Empty lines and lines that begin with
// # are passed over.
#![tactic(auto)]

use notation::{Named, each_line, over};
use polynomials::Polynomial;
use report::Report;
use std::io;

mod report;

fn main(rt: HostRuntime) -> io::Result<()> {
    each_line(&rt, |text| {
        println!(rt; "{text}")?;
        answer(&rt, text)
    })
}

// Prints what a line asks for, or why it is refused.
fn answer(rt: &HostRuntime, text: &str) -> io::Result<()> {
    let Some((field, a, b)) = sides(text) else {
        return println!(rt; "refused: a line is FIELD | A | B");
    };
    match (field.parse::<Named>(), polynomial(a), polynomial(b)) {
        (Ok(field), Some(a), Some(b)) => over(rt, field, Report { a, b }),
        (Err(fault), Some(_), Some(_)) => println!(rt; "refused: {fault}"),
        _ => println!(rt;
            "refused: a polynomial is at most ten numbers, the lowest coefficient first"
        ),
    }
}

// The three parts of a line `FIELD | A | B`. No function for any number of parts: the borrow checker covers no array of references
// whose length is a const parameter.
fn sides(text: &str) -> Option<(&str, &str, &str)> {
    let (field, rest) = text.split_once('|')?;
    let (a, b) = rest.split_once('|')?;
    Some((field, a, b))
}

// A polynomial by its coefficients, the lowest first. No number at all is the polynomial 0.
fn polynomial(text: &str) -> Option<Polynomial> {
    let mut codes = [0; 10];
    let mut places = codes.iter_mut();
    for word in text.split_whitespace() {
        *places.next()? = word.parse().ok()?;
    }
    Some(Polynomial { codes })
}

// Adds divisors. A line of standard input is FIELD | CURVE | D | E, where the field is `residues M`, `nine` or `pairs M R`, the
// curve is f4 f3 f2 f1 f0, and a divisor is its degree, u1, u0, v1, v0 and n. The line is printed again, and below it
// whether D and E are valid, D + E, 2D and -D, or why the line is refused. Empty lines and lines that begin with # are passed
// over.
#![tactic(auto)]

use notation::{Named, each_line, over};
use std::io;
use sums::Sums;

mod sums;

fn main(rt: HostRuntime) -> io::Result<()> {
    each_line(&rt, |text| {
        println!(rt; "{text}")?;
        answer(&rt, text)
    })
}

// Prints what a line asks for, or why it is refused.
fn answer(rt: &HostRuntime, text: &str) -> io::Result<()> {
    let Some((field, curve, d, e)) = parts(text) else {
        return println!(rt; "refused: a line is FIELD | CURVE | D | E");
    };
    let field = match field.parse::<Named>() {
        Ok(field) => field,
        Err(fault) => return println!(rt; "refused: {fault}"),
    };
    match Sums::parse(curve, d, e) {
        Some(sums) => over(rt, field, sums),
        None => println!(rt;
            "refused: a curve is five numbers, and a divisor is its degree, u1, u0, v1, v0 and n"
        ),
    }
}

// The four parts of a line `FIELD | CURVE | D | E`. No function for any number of parts: the borrow checker covers no array of
// references whose length is a const parameter.
fn parts(text: &str) -> Option<(&str, &str, &str, &str)> {
    let (field, rest) = text.split_once('|')?;
    let (curve, rest) = rest.split_once('|')?;
    let (d, e) = rest.split_once('|')?;
    Some((field, curve, d, e))
}

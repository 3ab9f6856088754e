// Compares closed formulas over the polynomial method with the polynomial method alone on all sums and doubles of all valid divisors
// of a curve. A line of standard input is FIELD | f4 f3 f2 f1 f0, where the field is `residues M`, `nine` or `pairs M R`; meant are
// fields of a few elements. Empty lines and lines that begin with # are passed over.
#![tactic(auto)]

use notation::{each_trimmed_line, on_curve, over};
use std::io;
use sums::AllSums;

mod divisors;
mod sums;

fn main(rt: HostRuntime) -> io::Result<()> {
    each_trimmed_line(&rt, |text| {
        print!(rt; "{text}: ")?;
        answer(&rt, text)
    })
}

fn answer(rt: &HostRuntime, text: &str) -> io::Result<()> {
    match on_curve(text) {
        Some((field, curve)) => over(rt, field, AllSums { curve }),
        None => println!(rt; "bad line"),
    }
}

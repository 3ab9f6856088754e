// Runs sheets, each by closed formulas and by the polynomial method, and prints what is answered and written.
//
// A line of standard input is a sheet in hexadecimal, where `N:` in front gives the output N bytes instead of 24,576. Empty lines and
// lines that begin with # are passed over. A line is printed for each sheet: the number answered; the bytes written, in hexadecimal;
// `differs` where the two runs differ in the number or in any byte of the output; and `touched` where a byte after the written ones
// is not as it was.
#![tactic(auto)]

use case::Case;
use notation::each_trimmed_line;
use outcome::{Outcome, by_closed_formulas, by_polynomials};
use std::alloc::{AllocError, Global};
use std::io;

mod case;
mod outcome;

fn main(rt: HostRuntime) -> io::Result<()> {
    each_trimmed_line(&rt, |text| {
        let answer = answer(rt.alloc(), text)?;
        println!(rt; "{answer}")
    })
}

// What is printed for a line.
fn answer(heap: Global, text: &str) -> Result<String, AllocError> {
    let Some(case) = Case::parse(heap, text)? else {
        return String::from_str(heap, "bad line");
    };
    let outcome = Outcome::of(heap, &case, by_closed_formulas)?;
    let mut shown = outcome.show(heap)?;
    if outcome != Outcome::of(heap, &case, by_polynomials)? {
        shown.push_str(" differs")?;
    }
    if outcome.touched() {
        shown.push_str(" touched")?;
    }
    Ok(shown)
}

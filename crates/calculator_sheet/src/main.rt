// Sends lists of calls to two calculators, one with closed formulas over the polynomial method and one with the polynomial
// method alone, and prints each answer, whether the two agree, and each register that is not neutral with its account.
//
// A list begins with a line `on FIELD | f4 f3 f2 f1 f0`, where the field is `residues M`, `nine` or `pairs M R`. Its calls follow, one
// to a line: `enter REGISTER DIVISOR`, `add TARGET A B`, `double TARGET A`, `negate TARGET A` and `show REGISTER`, where a divisor is
// its degree, u1, u0, v1, v0 and n. Empty lines and lines that begin with # are passed over.
#![tactic(auto)]

use list::{List, parse_call};
use notation::{each_trimmed_line, over};
use std::io;

mod accounts;
mod list;
mod sending;

fn main(rt: HostRuntime) -> io::Result<()> {
    let mut open = None;
    each_trimmed_line(&rt, |text| take(&rt, &mut open, text))?;
    close(&rt, open)
}

// One line more: a call of the list that is open, or the head of another.
fn take(rt: &HostRuntime, open: &mut Option<List>, text: &str) -> io::Result<()> {
    if let Some(head) = text.strip_prefix("on ") {
        close(rt, open.take())?;
        println!(rt; "{text}")?;
        *open = List::parse(rt.alloc(), head);
        if open.is_none() {
            println!(rt; "bad line: a list begins with on FIELD | f4 f3 f2 f1 f0")?;
        }
        return Ok(());
    }
    match (open, parse_call(text)) {
        (Some(list), Some(call)) => list.push(call)?,
        _ => println!(rt; "bad line: {text}")?,
    }
    Ok(())
}

// Sends the calls of a list that ends.
fn close(rt: &HostRuntime, open: Option<List>) -> io::Result<()> {
    match open {
        Some(list) => over(rt, list.field, list),
        None => Ok(()),
    }
}

// Judges finite fields: reads a request from each line of standard input, makes the field, and prints what it is like, or
// why it is refused.
#![tactic(auto)]

use judging::judge;
use request::Request;
use std::io;
use std::io::{BufRead, BufReader};

mod judging;
mod report;
mod request;
mod verdict;

fn main(rt: HostRuntime) -> io::Result<()> {
    // The reader has a buffer, since `rt.lines` reads a pipe a byte at a time. A line that is no text gets an answer here and
    // does not end the program, as it would in the loop of `notation`.
    for line in BufReader::new(rt.alloc(), rt.stdin())?.lines(rt.alloc()) {
        match line {
            Ok(text) => answer(&rt, text.as_str().trim())?,
            Err(e) if e.kind() == io::ErrorKind::InvalidData => println!(rt; "bad line: no text")?,
            Err(e) => return Err(e),
        }
    }
    Ok(())
}

// Prints what is answered to a line. Blank lines and comments get no answer.
fn answer(rt: &HostRuntime, line: &str) -> io::Result<()> {
    if line.is_empty() || line.starts_with('#') {
        return Ok(());
    }
    match line.parse::<Request>() {
        Ok(request) => match judge(rt.alloc(), request)? {
            Ok(report) => println!(rt; "{line}: {report}"),
            Err(no_field) => println!(rt; "{line}: {no_field}"),
        },
        Err(fault) => println!(rt; "{line}: bad line: {fault}"),
    }
}

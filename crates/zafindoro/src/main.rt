// Runs the sheet on standard input, and writes what the run answers to standard output.
#![tactic(auto)]

use run::answer;
use std::io;
use std::io::{Read, Write};

fn main(rt: HostRuntime) -> io::Result<()> {
    let mut sheet = Vec::new(rt.alloc());
    // One byte more than a sheet may have tells one that is too long.
    rt.stdin().take(4097).read_to_end(&mut sheet)?;
    // The run allocates nothing: it is lent its output, and answers how much of it is written.
    let mut output = [0u8; 24576];
    let n = answer(&sheet, &mut output);
    rt.stdout().write_all(&output[0..n])
}

// The lines of standard input that say something.
use std::io;
use std::io::{BufRead, BufReader};

// Calls f with each line of standard input but for blank lines and lines that begin with #. The reader has a buffer, since
// `rt.lines` reads a pipe a byte at a time. No clause tells the result, here and below: input and output are outside of what is
// stated, and the stored runs of the programs show that they succeed.
pub fn each_line<F: FnMut(&str) -> io::Result<()>>(rt: &HostRuntime, mut f: F) -> io::Result<()>
    requires { F.IsAlwaysCallable f }
{
    for line in BufReader::new(rt.alloc(), rt.stdin())?.lines(rt.alloc()) {
        let line = line?;
        let text = line.as_str();
        if !text.trim().is_empty() && !text.starts_with('#') {
            f(text)?;
        }
    }
    Ok(())
}

// The same, without the spaces around a line, also before a #.
pub fn each_trimmed_line<F: FnMut(&str) -> io::Result<()>>(
    rt: &HostRuntime,
    mut f: F,
) -> io::Result<()>
    requires { (state : F) (text : _) → F.pre state text }
{
    each_line(
        rt,
        |line: &str| -> io::Result<()>
            requires { (text : _) → F.pre f text }
        {
            let text = line.trim();
            if text.starts_with('#') {
                Ok(())
            } else {
                f(text)
            }
        },
    )
}

// Requests for a field, and the lines that they are read from.
use std::error::Error;
use std::fmt;
use std::str::{FromStr, SplitWhitespace};

// A field to begin with: the residues modulo m, or the field of nine elements.
#[derive(Clone, Copy, Debug, PartialEq, Eq, Hash)]
pub enum Base {
    Residues(u16),
    Nine,
}

// What is built on the base: nothing, the pairs with t² = r, or over these the pairs with t² = s.
#[derive(Clone, Copy, Debug, PartialEq, Eq, Hash)]
pub enum Tower {
    Plain,
    Once(u32),
    Twice(u32, u32),
}

#[derive(Clone, Copy, Debug, PartialEq, Eq, Hash)]
pub struct Request {
    pub base: Base,
    pub tower: Tower,
}

// What is wrong with a line.
#[derive(Clone, Copy, Debug, PartialEq, Eq, Hash)]
pub enum Fault {
    Kind,
    Missing,
    Modulus,
    Root,
    Extra,
}

impl fmt::Display for Fault {
    fn fmt<W: fmt::Write>(&self, f: &mut fmt::Formatter<W>) -> fmt::Result {
        f.write_str(match self {
            Fault::Kind => "a field is `residues`, `nine` or `pairs`",
            Fault::Missing => "a number is missing",
            Fault::Modulus => "the modulus is no number from 0 to 65535",
            Fault::Root => "r is no number from 0 to 4294967295",
            Fault::Extra => "there are more words than the field takes",
        })
    }
}

impl Error for Fault {}

// The request on a line: `residues M`, `nine`, `pairs M R`, `pairs nine R`, or either of the last two with the r of pairs
// over these pairs behind it.
impl FromStr for Request {
    type Err = Fault;

    fn from_str(line: &str) -> Result<Request, Fault> {
        let mut words = line.split_whitespace();
        let request = match words.next() {
            Some("residues") => Request {
                base: Base::Residues(number(words.next(), Fault::Modulus)?),
                tower: Tower::Plain,
            },
            Some("nine") => Request {
                base: Base::Nine,
                tower: Tower::Plain,
            },
            Some("pairs") => extension(&mut words)?,
            _ => return Err(Fault::Kind),
        };
        match words.next() {
            None => Ok(request),
            Some(_) => Err(Fault::Extra),
        }
    }
}

// What follows the word `pairs`.
fn extension(words: &mut SplitWhitespace<'_>) -> Result<Request, Fault> {
    let base = match words.next() {
        Some("nine") => Base::Nine,
        word => Base::Residues(number(word, Fault::Modulus)?),
    };
    let r = number(words.next(), Fault::Root)?;
    let tower = match words.next() {
        None => Tower::Once(r),
        word => Tower::Twice(r, number(word, Fault::Root)?),
    };
    Ok(Request { base, tower })
}

// The number that a word stands for; or that there is no word, or this fault of the word.
fn number<N: FromStr>(word: Option<&str>, fault: Fault) -> Result<N, Fault>
where
    N::Err: Drop,
{
    word.ok_or(Fault::Missing)?.parse().map_err(|_| fault)
}

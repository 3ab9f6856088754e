// Fields by their names, and what is done over the field that a name stands for.
ghost use Rattle.std.specs.Prelude.{◌≡◌, IfOk};

use fields::{Field, FieldRefusal, Nine, Pairs, Residues};
use std::error::Error;
use std::num::ParseIntError;
use std::str::FromStr;
use std::{fmt, io};

// The residues modulo M, the field of nine elements, or the pairs with t² = R over the residues modulo M.
#[derive(Clone, Copy, Debug, PartialEq, Eq, Hash)]
pub enum Named {
    Residues(u16),
    Nine,
    Pairs(u16, u32),
}

// A field's name, as it is read.
impl fmt::Display for Named {
    ghost use Rattle.std.specs.Prelude.{Some};
    ghost use Rattle.notation.specs.Names.{field_text};

    ghost output = { λ named. Some (field_text named) };

    fn fmt<W: fmt::Write>(&self, f: &mut fmt::Formatter<W>) -> fmt::Result {
        match *self {
            Named::Residues(m) => write!(f, "residues {m}"),
            Named::Nine => write!(f, "nine"),
            Named::Pairs(m, r) => write!(f, "pairs {m} {r}"),
        }
    }
}

// A text that is no field's name.
#[derive(Clone, Copy, Debug, PartialEq, Eq, Hash)]
pub struct NotAField;

impl fmt::Display for NotAField {
    ghost use Rattle.std.specs.Prelude.{Some, codes};

    ghost output = { λ _. Some (codes "a field is residues M, nine or pairs M R") };

    fn fmt<W: fmt::Write>(&self, f: &mut fmt::Formatter<W>) -> fmt::Result {
        write!(f, "a field is residues M, nine or pairs M R")
    }
}

impl Error for NotAField {}

// No clause tells what comes out: the type has one value.
impl From<ParseIntError> for NotAField {
    fn from(_: ParseIntError) -> NotAField {
        NotAField
    }
}

// A field by its name: `residues M`, `nine` or `pairs M R`.
impl FromStr for Named {
    type Err = NotAField;

    ghost use Rattle.notation.specs.Names.{NamesItsKind};

    ghost from_str_gives = { NamesItsKind };

    fn from_str(text: &str) -> Result<Named, NotAField> {
        let mut words = text.split_whitespace();
        // No word is asked for behind the last, so that white space behind it is gone over once.
        match words.next() {
            Some("residues") => alone(Named::Residues(number(words.next())?), words.next()),
            Some("nine") => alone(Named::Nine, words.next()),
            Some("pairs") => {
                let (m, r) = (number(words.next())?, number(words.next())?);
                alone(Named::Pairs(m, r), words.next())
            }
            _ => Err(NotAField),
        }
    }
}

// The number that a word stands for.
fn number<N: FromStr<Err = ParseIntError>>(word: Option<&str>) -> Result<N, NotAField> {
    Ok(word.ok_or(NotAField)?.parse()?)
}

// The field that was named, where no word follows.
fn alone(named: Named, word: Option<&str>) -> Result<Named, NotAField>
    ensures { IfOk result (λ field. field ≡ named) }
{
    word.map_or(Ok(named), |_| Err(NotAField))
}

// Something to do over any field. A closure has one type of argument, and so cannot take each field in turn.
pub trait FieldTask: Sized {
    fn run<F: Field + Drop>(self, rt: &HostRuntime, field: F) -> io::Result<()>;

    // Prints why there is no such field. What a call prints has no contract.
    fn refuse(rt: &HostRuntime, refusal: FieldRefusal) -> io::Result<()> {
        println!(rt; "refused: {refusal}")
    }
}

// Makes the field and does the task over it, or prints why the field is refused.
pub fn over<T: FieldTask + Drop>(rt: &HostRuntime, named: Named, task: T) -> io::Result<()> {
    let (m, r) = match named {
        Named::Nine => return task.run(rt, Nine::new()),
        Named::Residues(m) => (m, None),
        Named::Pairs(m, r) => (m, Some(r)),
    };
    let mut table = [0; 8191];
    let residues = match Residues::filled(m, &mut table[..usize::from(m).min(8191)]) {
        Ok(residues) => residues,
        Err(refusal) => return T::refuse(rt, refusal),
    };
    let Some(r) = r else {
        return task.run(rt, residues);
    };
    match Pairs::over(residues, r) {
        Ok(pairs) => task.run(rt, pairs),
        Err((_, refusal)) => T::refuse(rt, refusal),
    }
}

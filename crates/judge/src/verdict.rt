// What is answered to a request.
use crate::report::Report;
use fields::FieldRefusal;
use std::error::Error;
use std::fmt;

// A report on the field that is asked for, or why there is none.
pub type Verdict = Result<Report, NoField>;

// A field was refused: the base field, or the pairs with this r.
#[derive(Clone, Copy, Debug, PartialEq, Eq, Hash)]
pub enum NoField {
    NoBase(FieldRefusal),
    NoPairs(u32, FieldRefusal),
}

impl fmt::Display for NoField {
    fn fmt<W: fmt::Write>(&self, f: &mut fmt::Formatter<W>) -> fmt::Result {
        match self {
            NoField::NoBase(refusal) => show(*refusal, f),
            NoField::NoPairs(r, refusal) => {
                write!(f, "r = {r} ")?;
                show(*refusal, f)
            }
        }
    }
}

impl Error for NoField {}

// The number of a refusal, the code that it names, and its condition in words.
fn show<W: fmt::Write>(refusal: FieldRefusal, f: &mut fmt::Formatter<W>) -> fmt::Result {
    let number = refusal.number();
    match refusal.code() {
        Some(code) => write!(f, "refused with {number} naming {code}: {refusal}"),
        None => write!(f, "refused with {number}: {refusal}"),
    }
}

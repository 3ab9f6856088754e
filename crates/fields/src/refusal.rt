// Why a field is refused.
ghost use Rattle.std.specs.Prelude.{◌≡◌};
ghost use Rattle.fields.specs.Refusals.{refusal_number, refusal_code};

use std::error::Error;
use std::fmt;

// The conditions on which the making of a field is refused. Each has a number; two of them share 2.
#[derive(Clone, Copy, Debug, PartialEq, Eq, Hash)]
pub enum FieldRefusal {
    // 2: the modulus is even, below 3 or above 8,191
    Modulus,
    // 2: the field under pairs has more than 255 elements
    TooManyElements,
    // 3: the table has not m entries
    TableLength,
    // 5: r is above q − 1
    NotACode,
    // 6: this code, the smallest from 1 on, has no inverse
    NoInverse(u16),
    // 7: r is a square in the field below
    Square,
}

impl FieldRefusal {
    // The number of the condition. A conversion to a number would say less than this name: two conditions share 2, and the
    // code of 6 is left out.
    pub fn number(self) -> u8
        ensures { result ≡ refusal_number self }
    {
        match self {
            FieldRefusal::Modulus | FieldRefusal::TooManyElements => 2,
            FieldRefusal::TableLength => 3,
            FieldRefusal::NotACode => 5,
            FieldRefusal::NoInverse(_) => 6,
            FieldRefusal::Square => 7,
        }
    }

    // The code that the refusal names, if it names one.
    pub fn code(self) -> Option<u16>
        ensures { result ≡ refusal_code self }
    {
        match self {
            FieldRefusal::NoInverse(a) => Some(a),
            _ => None,
        }
    }
}

// The condition in words.
impl fmt::Display for FieldRefusal {
    fn fmt<W: fmt::Write>(&self, f: &mut fmt::Formatter<W>) -> fmt::Result {
        match self {
            FieldRefusal::Modulus => write!(f, "the modulus is even, below 3 or above 8191"),
            FieldRefusal::TooManyElements => write!(
                f,
                "the field below has more than 255 elements"
            ),
            FieldRefusal::TableLength => write!(
                f,
                "the table has not as many entries as the modulus says"
            ),
            FieldRefusal::NotACode => write!(f, "r is no code of the field below"),
            FieldRefusal::NoInverse(a) => write!(f, "{a} is the smallest code that has no inverse"),
            FieldRefusal::Square => write!(f, "r is a square in the field below"),
        }
    }
}

impl Error for FieldRefusal {}

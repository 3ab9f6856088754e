// Why a record, or a whole sheet, is refused.
ghost use Rattle.std.specs.Prelude.{◌≡◌, Err};
ghost use Rattle.run.specs.declared.refusal.Refusal.TheVariants.{Field, Curve, Call, Sheet};
ghost use Rattle.run.specs.Refusals.{run_refusal_number, sheet_refusal_number, host_answer};

use calculator::CallRefusal;
use fields::FieldRefusal;
use methods::CurveRefusal;
use std::error::Error;
use std::fmt;

// Why the sizes of a sheet and its output are refused.
#[derive(Clone, Copy, Debug, PartialEq, Eq, Hash)]
pub enum SheetRefusal {
    // 3: the output is not of 24,576 bytes
    OutputLength,
    // 13: the sheet is of over 4,096 bytes
    SheetLength,
}

impl SheetRefusal {
    // The number of the condition, which a conversion would not name.
    pub fn number(self) -> u8
        ensures { result ≡ sheet_refusal_number self }
    {
        match self {
            SheetRefusal::OutputLength => 3,
            SheetRefusal::SheetLength => 13,
        }
    }

    // What the call of a host program answers: a number above the length of every output, since C has no Result.
    pub fn host_answer(self) -> u32
        ensures { result ≡ host_answer (Err self) }
    {
        65536 + u32::from(self.number())
    }
}

// The condition in words, which no clause states: it would write each text a second time.
impl fmt::Display for SheetRefusal {
    fn fmt<W: fmt::Write>(&self, f: &mut fmt::Formatter<W>) -> fmt::Result {
        match self {
            SheetRefusal::OutputLength => write!(f, "the output is not 24576 bytes long"),
            SheetRefusal::SheetLength => write!(f, "the sheet is over 4096 bytes long"),
        }
    }
}

impl Error for SheetRefusal {}

// Why a record is refused, and for the program a sheet.
#[derive(Clone, Copy, Debug, PartialEq, Eq, Hash)]
pub enum Refusal {
    // 2, 5, 6 or 7
    Field(FieldRefusal),
    // 5 or 8
    Curve(CurveRefusal),
    // 1, 4, 5 or 9
    Call(CallRefusal),
    // 3 or 13
    Sheet(SheetRefusal),
    // 10: the sheet ends inside the record
    Short,
    // 11: no record has this kind
    Unknown,
    // 12: the record is out of turn
    OutOfTurn,
}

impl Refusal {
    // The number of the condition, which a conversion would not name.
    pub fn number(self) -> u8
        ensures { result ≡ run_refusal_number self }
    {
        match self {
            Refusal::Field(why) => why.number(),
            Refusal::Curve(why) => why.number(),
            Refusal::Call(why) => why.number(),
            Refusal::Sheet(why) => why.number(),
            Refusal::Short => 10,
            Refusal::Unknown => 11,
            Refusal::OutOfTurn => 12,
        }
    }
}

// The condition in words, which no clause states: it would write each text a second time.
impl fmt::Display for Refusal {
    fn fmt<W: fmt::Write>(&self, f: &mut fmt::Formatter<W>) -> fmt::Result {
        match self {
            Refusal::Field(why) => write!(f, "{why}"),
            Refusal::Curve(why) => write!(f, "{why}"),
            Refusal::Call(why) => write!(f, "{why}"),
            Refusal::Sheet(why) => write!(f, "{why}"),
            Refusal::Short => write!(f, "the sheet ends inside the record"),
            Refusal::Unknown => write!(f, "the kind of the record is unknown"),
            Refusal::OutOfTurn => write!(f, "the record is out of turn"),
        }
    }
}

impl Error for Refusal {}

// The refusals of fields, curves, calls and sheets, as those of a run. Written out and not derived, since proofs read what they give.
impl From<FieldRefusal> for Refusal {
    ghost from_gives = { λ why refusal. refusal ≡ Field why };

    fn from(why: FieldRefusal) -> Refusal {
        Refusal::Field(why)
    }
}

impl From<CurveRefusal> for Refusal {
    ghost from_gives = { λ why refusal. refusal ≡ Curve why };

    fn from(why: CurveRefusal) -> Refusal {
        Refusal::Curve(why)
    }
}

impl From<CallRefusal> for Refusal {
    ghost from_gives = { λ why refusal. refusal ≡ Call why };

    fn from(why: CallRefusal) -> Refusal {
        Refusal::Call(why)
    }
}

impl From<SheetRefusal> for Refusal {
    ghost from_gives = { λ why refusal. refusal ≡ Sheet why };

    fn from(why: SheetRefusal) -> Refusal {
        Refusal::Sheet(why)
    }
}

// Calls as values, with their answers and refusals.
ghost use Rattle.std.specs.Prelude.{◌≡◌};
ghost use Rattle.calculator.specs.Calls.{call_refusal_number};

use methods::{Divisor, DivisorRefusal};
use std::error::Error;
use std::fmt;

// A call. A target may also be an operand.
#[derive(Clone, Copy, Debug, PartialEq, Eq, Hash)]
pub enum Call {
    // target, divisor
    Enter(u8, Divisor),
    // target, two operands
    Add(u8, u8, u8),
    // target, operand
    Double(u8, u8),
    // target, operand
    Negate(u8, u8),
    // register
    Show(u8),
}

// The name of the call, then its registers and its divisor.
impl fmt::Display for Call {
    ghost use Rattle.std.specs.Prelude.{Some};
    ghost use Rattle.calculator.specs.Texts.{call_text};

    ghost output = { λ call. Some (call_text call) };

    fn fmt<W: fmt::Write>(&self, f: &mut fmt::Formatter<W>) -> fmt::Result {
        match self {
            Call::Enter(target, divisor) => write!(f, "enter {target} {divisor}"),
            Call::Add(target, a, b) => write!(f, "add {target} {a} {b}"),
            Call::Double(target, a) => write!(f, "double {target} {a}"),
            Call::Negate(target, a) => write!(f, "negate {target} {a}"),
            Call::Show(register) => write!(f, "show {register}"),
        }
    }
}

// Why a call is refused.
#[derive(Clone, Copy, Debug, PartialEq, Eq, Hash)]
pub enum CallRefusal {
    // 1: a register above 15
    NoSuchRegister,
    // 4, 5 or 9: a divisor that is not valid on the curve
    InvalidDivisor(DivisorRefusal),
}

impl CallRefusal {
    // The number of the condition. A method and no conversion: the number alone does not say which refusal it is, since fields
    // and curves have a refusal 5 too.
    pub fn number(self) -> u8
        ensures { result ≡ call_refusal_number self }
    {
        match self {
            CallRefusal::NoSuchRegister => 1,
            CallRefusal::InvalidDivisor(why) => why.number(),
        }
    }
}

// The condition in words, which no clause states: it would write each text a second time.
impl fmt::Display for CallRefusal {
    fn fmt<W: fmt::Write>(&self, f: &mut fmt::Formatter<W>) -> fmt::Result {
        match self {
            CallRefusal::NoSuchRegister => write!(f, "a register is above 15"),
            CallRefusal::InvalidDivisor(why) => write!(f, "{why}"),
        }
    }
}

impl Error for CallRefusal {}

// A divisor that is refused refuses the call.
impl From<DivisorRefusal> for CallRefusal {
    ghost use Rattle.calculator.specs.declared.call.CallRefusal.TheVariants.{InvalidDivisor};

    ghost from_gives = { λ refusal r. r ≡ InvalidDivisor refusal };

    fn from(refusal: DivisorRefusal) -> CallRefusal {
        CallRefusal::InvalidDivisor(refusal)
    }
}

// What a call answers: accepted, Show the register's divisor, and the others nothing; or why it is refused.
pub type Answer = Result<Option<Divisor>, CallRefusal>;

// A call with the place for its answer.
#[derive(Clone, Copy, Debug, PartialEq, Eq, Hash)]
pub struct Exchange {
    pub call: Call,
    pub answer: Answer,
}

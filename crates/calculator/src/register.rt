// The numbers of the sixteen registers.
ghost use Rattle.std.specs.Prelude.{◌≡◌, ◌<◌};

use crate::call::CallRefusal;

// The number of a register, from 0 to 15.
#[derive(Clone, Copy, Debug, PartialEq, Eq, Hash)]
pub struct Register {
    number: u8,
    ghost inside: { number < 16 },
}

// Any other number is refused.
impl TryFrom<u8> for Register {
    ghost use Rattle.std.specs.Prelude.{◌≤◌, MatchResult};
    ghost use Rattle.calculator.specs.declared.call.CallRefusal.TheVariants.{NoSuchRegister};

    type Error = CallRefusal;

    ghost try_from_gives = { λ number r. MatchResult r (λ register. register.number ≡ number) (λ why. (16 ≤ number) × (why ≡ NoSuchRegister)) };

    fn try_from(number: u8) -> Result<Register, CallRefusal> {
        if number > 15 {
            return Err(CallRefusal::NoSuchRegister);
        }
        Ok(Register { number })
    }
}

// Where the register's divisor stands.
impl From<Register> for usize {
    ghost from_gives = { λ register place. place ≡ register.number };

    fn from(register: Register) -> usize {
        usize::from(register.number)
    }
}

// Sixteen registers, each of which holds a divisor.
ghost use Rattle.std.specs.Prelude.{◌≡◌, slice_set};
ghost use Rattle.calculator.specs.Calls.{at, sixteen_neutral};

use crate::register::Register;
use methods::Divisor;

// An array, since no call of a calculator allocates.
#[derive(Clone, Copy, Debug, PartialEq, Eq, Hash)]
pub struct Registers {
    divisors: [Divisor; 16],
}

impl Registers {
    // All neutral.
    pub fn new() -> Registers
        ensures { result.divisors ≡ sixteen_neutral }
    {
        Registers {
            divisors: [Divisor::neutral(); 16],
        }
    }

    // What a register holds.
    pub fn read(&self, register: Register) -> Divisor
        ensures { result ≡ at self.now.divisors register.number }
    {
        self.divisors[usize::from(register)]
    }

    // Puts a divisor into a register, and leaves the others.
    pub fn put(&mut self, target: Register, divisor: Divisor)
        ensures { self.new.divisors ≡ slice_set self.old.divisors target.number divisor }
    {
        self.divisors[usize::from(target)] = divisor;
    }
}

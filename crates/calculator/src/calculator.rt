// The calculator and its calls.
ghost use Rattle.std.specs.Prelude.{◌≡◌, [], ◌∷◌};
ghost use Rattle.calculator.specs.Calls.{nothing, said};
ghost use Rattle.calculator.specs.Calculators.{calls_of, answers_of, Fresh, Sound, gives, Left, LeftAll, Accounted, Settled};

use crate::call::{Answer, Call, CallRefusal, Exchange};
use crate::register::Register;
use crate::registers::Registers;
use fields::Field;
use methods::{Divisor, Method, Model, entered, negative};
use std::marker::PhantomData;

// Sixteen registers, 0 to 15, on a model, with a method for their sums.
#[derive(Debug, Drop)]
pub struct Calculator<F, M> {
    model: Model<F>,
    registers: Registers,
    method: PhantomData<M>,
}

// Every call takes every field and method, lawful or not, so that `Sound` is a premise of the clauses and no invariant of the type.
// A rule of the project has a method for each kind of call. One for double and negate, which differ in one line, would be no plainer.
impl<F: Field, M: Method<F>> Calculator<F, M> {
    // A fresh calculator on a model.
    pub fn new(model: Model<F>) -> Calculator<F, M>
        ensures model { result.model ≡ model }
        ensures fresh { Fresh result }
    {
        Calculator {
            model,
            registers: Registers::new(),
            method: PhantomData,
        }
    }

    // Puts a valid divisor into the target.
    pub fn enter(&mut self, target: u8, divisor: Divisor) -> Result<(), CallRefusal>
        ensures answer { Sound F.Field M.Method.answers self.old → result ≡ nothing (gives F.Field self.old (Call.Enter target divisor)) }
        ensures left { Left F.Field M.Method.answers (Call.Enter target divisor) self.old self.new }
    {
        let register = Register::try_from(target)?;
        let valid = entered(self.model.field(), self.model.curve(), divisor)?;
        self.registers.put(register, valid);
        Ok(())
    }

    // Puts the sum of two registers into the target.
    pub fn add(&mut self, target: u8, a: u8, b: u8) -> Result<(), CallRefusal>
        ensures answer { Sound F.Field M.Method.answers self.old → result ≡ nothing (gives F.Field self.old (Call.Add target a b)) }
        ensures left { Left F.Field M.Method.answers (Call.Add target a b) self.old self.new }
    {
        let target = Register::try_from(target)?;
        let first = self.registers.read(Register::try_from(a)?);
        let second = self.registers.read(Register::try_from(b)?);
        let sum = M::add(self.model.field(), self.model.curve(), first, second)?;
        self.registers.put(target, sum);
        Ok(())
    }

    // Puts the double of a register into the target.
    pub fn double(&mut self, target: u8, a: u8) -> Result<(), CallRefusal>
        ensures answer { Sound F.Field M.Method.answers self.old → result ≡ nothing (gives F.Field self.old (Call.Double target a)) }
        ensures left { Left F.Field M.Method.answers (Call.Double target a) self.old self.new }
    {
        let target = Register::try_from(target)?;
        let operand = self.registers.read(Register::try_from(a)?);
        let double = M::double(self.model.field(), self.model.curve(), operand)?;
        self.registers.put(target, double);
        Ok(())
    }

    // Puts the negative of a register into the target.
    pub fn negate(&mut self, target: u8, a: u8) -> Result<(), CallRefusal>
        ensures answer { Sound F.Field M.Method.answers self.old → result ≡ nothing (gives F.Field self.old (Call.Negate target a)) }
        ensures left { Left F.Field M.Method.answers (Call.Negate target a) self.old self.new }
    {
        let target = Register::try_from(target)?;
        let operand = self.registers.read(Register::try_from(a)?);
        let opposite = negative(self.model.field(), operand);
        self.registers.put(target, opposite);
        Ok(())
    }

    // What a register holds.
    pub fn show(&self, register: u8) -> Result<Divisor, CallRefusal>
        ensures { result ≡ gives F.Field self.now (Call.Show register) }
    {
        Ok(self.registers.read(Register::try_from(register)?))
    }

    // One call of any kind.
    #[tactic(auto, using(crate::proofs::Runs::accounted))]
    pub fn send(&mut self, call: Call) -> Answer
        ensures answer { Sound F.Field M.Method.answers self.old → result ≡ said call (gives F.Field self.old call) }
        ensures left { Left F.Field M.Method.answers call self.old self.new }
        ensures accounted { Accounted F.Field M.Method.answers (call ∷ []) self.old self.new (result ∷ []) }
    {
        match call {
            Call::Enter(target, divisor) => self.enter(target, divisor).map(|()| None),
            Call::Add(target, a, b) => self.add(target, a, b).map(|()| None),
            Call::Double(target, a) => self.double(target, a).map(|()| None),
            Call::Negate(target, a) => self.negate(target, a).map(|()| None),
            Call::Show(register) => self.show(register).map(Some),
        }
    }

    // Calls one after another, each answered in its place.
    #[tactic(auto, using(crate::proofs::Loops::all_done, crate::proofs::Runs::accounted_all, crate::proofs::Runs::settled))]
    pub fn send_all(&mut self, exchanges: &mut [Exchange])
        ensures calls { calls_of exchanges.new ≡ calls_of exchanges.old }
        ensures left { LeftAll F.Field M.Method.answers (calls_of exchanges.old) self.old self.new (answers_of exchanges.new) }
        ensures accounted { Accounted F.Field M.Method.answers (calls_of exchanges.old) self.old self.new (answers_of exchanges.new) }
        ensures settled { Settled F.Field M.Method.answers (calls_of exchanges.old) self.old self.new (answers_of exchanges.new) }
    {
        for exchange in exchanges.iter_mut() {
            exchange.answer = self.send(exchange.call);
        }
    }
}

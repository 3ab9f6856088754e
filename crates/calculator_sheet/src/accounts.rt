// The accounts of the registers, as they are printed: each divisor with how often it stands in the account.
use calculator::Call;
use fields::Field;
use indexmap::IndexMap;
use methods::{Divisor, Model, entered, negative};
use std::alloc::{AllocError, Global};
use std::array;

// The divisors of an account in the order in which they came, each with how often it stands there; counts above 2⁶⁴ − 1 are not told
// apart. A list, since accounts are copied more than they are searched: only where two are joined, a map finds equal divisors.
pub type Account = Vec<(Divisor, u64)>;

// The account of each register.
#[derive(Debug, Drop)]
pub struct Accounts {
    pub of: [Account; 16],
}

impl Accounts {
    // Sixteen empty accounts.
    pub fn new(heap: Global) -> Accounts {
        Accounts {
            of: array::from_fn(|_| Vec::new(heap)),
        }
    }

    // Draws up the account of a call's target, from the call, the field and the curve alone. A refused call changes none.
    pub fn draw<F: Field>(
        &mut self,
        heap: Global,
        model: &Model<F>,
        call: Call,
    ) -> Result<(), AllocError> {
        if !accepted(model, call) {
            return Ok(());
        }
        let (target, account) = match call {
            Call::Enter(target, divisor) => (target, vec![in heap; (divisor, 1)]?),
            Call::Add(target, a, b) => (target, self.joined(heap, a, b)?),
            Call::Double(target, a) => (target, self.joined(heap, a, a)?),
            Call::Negate(target, a) => (target, self.negated(heap, model.field(), a)?),
            Call::Show(_) => return Ok(()),
        };
        if let Some(place) = self.of.get_mut(usize::from(target)) {
            *place = account;
        }
        Ok(())
    }

    // The accounts of two registers together.
    fn joined(&self, heap: Global, a: u8, b: u8) -> Result<Account, AllocError> {
        let mut joined = IndexMap::new(heap);
        for register in [a, b] {
            if let Some(account) = self.of.get(usize::from(register)) {
                for &(divisor, count) in account {
                    let total = joined.entry(divisor)?.or_insert(0u64);
                    *total = total.saturating_add(count);
                }
            }
        }
        joined.into_iter().collect(heap)
    }

    // The account of a register with each divisor replaced by its negative. Divisors that differ have negatives that differ.
    fn negated<F: Field>(
        &self,
        heap: Global,
        field: &F,
        register: u8,
    ) -> Result<Account, AllocError> {
        let mut negated = Vec::new(heap);
        if let Some(account) = self.of.get(usize::from(register)) {
            for &(divisor, count) in account {
                negated.push((negative(field, divisor), count))?;
            }
        }
        Ok(negated)
    }
}

// Whether a call is accepted: its registers are 15 at most, and a divisor that it enters is valid. Written apart from the
// calculator, so that the accounts are drawn from the call, the field and the curve alone.
fn accepted<F: Field>(model: &Model<F>, call: Call) -> bool {
    match call {
        Call::Enter(target, divisor) => {
            target <= 15 && entered(model.field(), model.curve(), divisor).is_ok()
        }
        Call::Add(target, a, b) => target <= 15 && a <= 15 && b <= 15,
        Call::Double(target, a) | Call::Negate(target, a) => target <= 15 && a <= 15,
        Call::Show(register) => register <= 15,
    }
}

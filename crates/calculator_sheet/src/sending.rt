// Sends a list of calls to two calculators, and prints what comes of it.
use crate::accounts::{Account, Accounts};
use crate::list::List;
use calculator::{Answer, Calculator, Comparison, agree};
use closed_formulas::Closed;
use fields::{Field, FieldRefusal};
use methods::{ByPolynomials, Divisor, Model};
use notation::{FieldTask, model};
use std::io;

impl FieldTask for List {
    // Makes the models of the two calculators on one field, or prints why the curve is refused.
    fn run<F: Field + Drop>(self, rt: &HostRuntime, field: F) -> io::Result<()> {
        let Some(first) = model(rt, &field, self.curve)? else {
            return Ok(());
        };
        match model(rt, &field, self.curve)? {
            Some(second) => exchange(rt, first, second, self.calls),
            None => Ok(()),
        }
    }

    fn refuse(rt: &HostRuntime, refusal: FieldRefusal) -> io::Result<()> {
        println!(rt; "field refused: {refusal}")
    }
}

// Draws up the accounts, sends the calls, and prints the answers and the registers.
fn exchange<F: Field + Drop>(
    rt: &HostRuntime,
    first: Model<F>,
    second: Model<F>,
    mut calls: Vec<Comparison>,
) -> io::Result<()> {
    let mut accounts = Accounts::new(rt.alloc());
    for comparison in &calls {
        accounts.draw(rt.alloc(), &first, comparison.call)?;
    }
    let mut closed: Calculator<F, Closed<ByPolynomials>> = Calculator::new(first);
    let mut plain: Calculator<F, ByPolynomials> = Calculator::new(second);
    agree(&mut closed, &mut plain, calls.as_mut_slice());
    for comparison in &calls {
        show_answers(rt, *comparison)?;
    }
    for (register, account) in (0..16).zip(&accounts.of) {
        if let (Ok(divisor), Ok(other)) = (closed.show(register), plain.show(register)) {
            show_register(rt, register, divisor, other, account)?;
        }
    }
    Ok(())
}

// A call with what was answered to it, once where the calculators agree.
fn show_answers(rt: &HostRuntime, comparison: Comparison) -> io::Result<()> {
    print!(rt; "{}: ", comparison.call)?;
    show_answer(rt, comparison.first)?;
    if comparison.first != comparison.second {
        print!(rt; ", but the polynomial method: ")?;
        show_answer(rt, comparison.second)?;
    }
    println!(rt; "")
}

fn show_answer(rt: &HostRuntime, answer: Answer) -> io::Result<()> {
    match answer {
        Ok(None) => print!(rt; "done"),
        Ok(Some(divisor)) => print!(rt; "{divisor}"),
        Err(refusal) => print!(rt; "refused {}", refusal.number()),
    }
}

// A register whose account is not empty, with the account.
fn show_register(
    rt: &HostRuntime,
    register: u8,
    divisor: Divisor,
    other: Divisor,
    account: &Account,
) -> io::Result<()> {
    if account.is_empty() {
        return Ok(());
    }
    print!(rt; "register {register}: {divisor}")?;
    if divisor != other {
        print!(rt; ", but the polynomial method: {other}")?;
    }
    print!(rt; " settles")?;
    for (divisor, count) in account {
        print!(rt; " {count} x [{divisor}]")?;
    }
    println!(rt; "")
}

// A calculator for divisor classes: sixteen registers on one model, the calls that use them, and lists of calls.
#![tactic(auto)]

pub use agreement::{Comparison, agree, compare};
pub use calculator::Calculator;
pub use call::{Answer, Call, CallRefusal, Exchange};

mod agreement;
mod calculator;
mod call;
mod register;
mod registers;

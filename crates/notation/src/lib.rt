// What the programs share: the lines of standard input, fields by their names, curves and divisors by their numbers, and the
// check of a curve.
#![tactic(auto)]

pub use forms::{curve, divisor, on_curve};
pub use lines::{each_line, each_trimmed_line};
pub use models::model;
pub use named::{FieldTask, Named, NotAField, over};
pub use rows::row;

mod forms;
mod lines;
mod models;
mod named;
mod rows;

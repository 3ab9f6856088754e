// Closed formulas for sums and doubles of divisors, as a layer over any method.
#![tactic(auto)]

pub use closed::Closed;

mod closed;
mod formulas;

// Divisor classes of y² = f(x): curves and models, divisors, and methods that add and double them.
//
// Every call takes every field, lawful or not. So that a field is lawful stands as a premise in the clauses that need it, and is
// no invariant of a type.
#![tactic(auto)]

pub use by_polynomials::ByPolynomials;
pub use codes::are_codes;
pub use curve::{Curve, CurveRefusal};
pub use divisor::{Divisor, DivisorRefusal, Linear, entered, negative};
pub use draft::{Coefficient, Draft, Model};
pub use method::Method;
pub use standing::{sums_stand, worked_sums_stand};

mod by_polynomials;
mod codes;
mod composition;
mod curve;
mod divisor;
mod draft;
mod method;
mod reduction;
mod standing;

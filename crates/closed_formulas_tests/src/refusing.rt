// A method that answers nothing, so that all answers of a layer over it are the layer's own.
ghost use Rattle.closed_formulas_tests.specs.Refusing.{refusing as refusing_law};

use fields::Field;
use methods::{Curve, Divisor, DivisorRefusal, Method};

#[derive(Clone, Copy, Debug, PartialEq, Eq, Hash)]
pub struct Refusing;

impl<F: Field> Method<F> for Refusing {
    ghost answers = { refusing_law };

    fn add(_field: &F, _curve: Curve, _a: Divisor, _b: Divisor) -> Result<Divisor, DivisorRefusal> {
        Err(DivisorRefusal::Shape)
    }

    fn double(_field: &F, _curve: Curve, _a: Divisor) -> Result<Divisor, DivisorRefusal> {
        Err(DivisorRefusal::Shape)
    }
}

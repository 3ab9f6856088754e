// Curves that are checked for a program.
ghost use Rattle.std.specs.Prelude.{◌≡◌, Ok, IfOk, IfSome};
ghost use Rattle.fields.specs.Lawful.{Lawful};
ghost use Rattle.methods.specs.Curves.{Accepted};

use fields::Field;
use methods::{Curve, Draft, Model};
use std::io;

// The model of a field and a curve. None where the curve is refused, which is printed.
pub fn model<F: Field + Drop>(
    rt: &HostRuntime,
    field: F,
    curve: Curve,
) -> io::Result<Option<Model<F>>>
    ensures holds { IfOk result (λ made. IfSome made (λ m. (m.field ≡ field) × (m.curve ≡ curve))) }
    ensures accepted { Lawful (F.Field.meaning field) → IfOk result (λ made. IfSome made (λ _. Accepted (F.Field.meaning field) curve)) }
{
    match Model::check(field, Draft::from(curve)) {
        Ok(model) => Ok(Some(model)),
        Err((_, _, refusal)) => {
            println!(rt; "curve refused {}", refusal.number())?;
            Ok(None)
        }
    }
}

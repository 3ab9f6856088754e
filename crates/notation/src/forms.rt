// Curves and divisors by their numbers.
ghost use Rattle.std.specs.Prelude.{◌≤◌, ◌<◌, length, IfSome};
ghost use Rattle.std.specs.Str.Iter.{HasSubslice};
ghost use Rattle.notation.specs.Names.{kind};

use crate::named::Named;
use crate::rows::row;
use methods::{Curve, Divisor, Linear};

// A curve by f4, f3, f2, f1 and f0. A function and no FromStr, as the two below: neither the text nor the result is a type of
// this crate.
pub fn curve(text: &str) -> Option<Curve>
    ensures { IfSome result (λ _. 5 ≤ length text.now) }
{
    let [f4, f3, f2, f1, f0] = row::<u32, 5>(text)?;
    Some(Curve { f4, f3, f2, f1, f0 })
}

// A field and a curve by `FIELD | f4 f3 f2 f1 f0`.
pub fn on_curve(text: &str) -> Option<(Named, Curve)>
    ensures length { IfSome result (λ _. 5 < length text.now) }
    ensures names { IfSome result (λ r. HasSubslice text.now (kind r.0)) }
{
    let (field, numbers) = text.split_once('|')?;
    Some((field.parse().ok()?, curve(numbers)?))
}

// A divisor by its degree, u1, u0, v1, v0 and n.
pub fn divisor(text: &str) -> Option<Divisor>
    ensures { IfSome result (λ _. 6 ≤ length text.now) }
{
    let [degree, u1, u0, v1, v0, n] = row::<u32, 6>(text)?;
    Some(Divisor {
        degree: u8::try_from(degree).ok()?,
        u: Linear { x1: u1, x0: u0 },
        v: Linear { x1: v1, x0: v0 },
        n: u8::try_from(n).ok()?,
    })
}

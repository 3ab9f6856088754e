// A list of calls, and how it is read.
use calculator::{Call, Comparison};
use methods::Curve;
use notation::{Named, divisor, on_curve, row};
use std::alloc::{AllocError, Global};

// A field, a curve that is not checked yet, and calls with places for the answers of two calculators.
#[derive(Debug, Drop)]
pub struct List {
    pub field: Named,
    pub curve: Curve,
    pub calls: Vec<Comparison>,
}

impl List {
    // The list that begins with `FIELD | f4 f3 f2 f1 f0`.
    pub fn parse(heap: Global, text: &str) -> Option<List> {
        let (field, curve) = on_curve(text)?;
        Some(List {
            field,
            curve,
            calls: Vec::new(heap),
        })
    }

    // Adds a call.
    pub fn push(&mut self, call: Call) -> Result<(), AllocError> {
        self.calls.push(Comparison {
            call,
            first: Ok(None),
            second: Ok(None),
        })?;
        Ok(())
    }
}

// A call by its name and numbers.
pub fn parse_call(text: &str) -> Option<Call> {
    let (name, rest) = text.split_once(' ')?;
    match name {
        "show" => row::<u8, 1>(rest).map(|[register]| Call::Show(register)),
        "double" => row::<u8, 2>(rest).map(|[target, a]| Call::Double(target, a)),
        "negate" => row::<u8, 2>(rest).map(|[target, a]| Call::Negate(target, a)),
        "add" => row::<u8, 3>(rest).map(|[target, a, b]| Call::Add(target, a, b)),
        "enter" => {
            let (target, numbers) = rest.trim_start().split_once(char::is_whitespace)?;
            Some(Call::Enter(target.parse().ok()?, divisor(numbers)?))
        }
        _ => None,
    }
}
